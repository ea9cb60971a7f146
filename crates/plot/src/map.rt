// The map: the banks of addresses 0 to 255 under a stride code, sixteen to a row.
ghost use Rattle.std.specs.Prelude.{◌<◌};

use crate::stride::Stride;
use crate::svg;
use std::io::Stdout;

fn square(out: Stdout, r: usize, c: usize, bank: usize)
    requires { (r < 16) × (c < 16) × (bank < 16) }
{
    svg::square(out, svg::middle(c) - 19, 111 + 40 * r, 38, bank);
    svg::bank(out, svg::middle(c), 135 + 40 * r, bank);
}

fn row(out: Stdout, stride: Stride, r: usize)
    requires { r < 16 }
{
    svg::label(out, 60, 135 + 40 * r, r);
    for c in 0..16 {
        square(out, r, c, stride.bank(16 * r + c));
    }
}

fn titles(out: Stdout) {
    let _ = println!(out;
        r#"<text x="400" y="74" text-anchor="middle" font-size="16">column (address mod 16)</text>"#
    );
    let _ = println!(out;
        r#"<text x="30" y="430" transform="rotate(-90 30 430)" text-anchor="middle" font-size="16">row (address / 16)</text>"#
    );
}

pub fn picture(out: Stdout, stride: Stride) {
    let name = format_args!(
        "Banks of addresses 0 to 255 under stride code {} (0x{:x} bytes)",
        stride.code,
        stride.bytes()
    );
    svg::begin(out, 800, 800, &name);
    titles(out);
    svg::columns(out, 100);
    let _ = println!(out; r#"<g text-anchor="middle">"#);
    for r in 0..16 {
        row(out, stride, r);
    }
    let _ = println!(out; "</g>");
    let _ = println!(out;
        r#"<text x="400" y="780" text-anchor="middle">A square is one address; the number and the colour are its bank.</text>"#
    );
    let _ = println!(out; "</svg>");
}
