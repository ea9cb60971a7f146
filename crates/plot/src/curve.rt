// The curve: how many banks a vertical load enters, by the column that it starts in, a line for each stride.
ghost use Rattle.std.specs.Prelude.{◌≤◌, ◌<◌};

use crate::access::Access;
use crate::stride::Stride;
use crate::svg;
use std::io::Stdout;
use terms::Way;

const NAME: &str = "How many banks a vertical load enters, by the column it starts in";

// How a stride's line and points are drawn.
#[derive(Clone, Copy)]
struct Pen {
    style: &'static str,
    radius: usize,
}

// By stride code. The lines of the last three lie on each other, so they go from wide to narrow and the last is dashed.
const PENS: [Pen; 4] = [
    Pen {
        style: r##"fill="#0080d0" stroke="#0080d0" stroke-width="6""##,
        radius: 7,
    },
    Pen {
        style: r##"fill="#003366" stroke="#003366" stroke-width="18""##,
        radius: 12,
    },
    Pen {
        style: r##"fill="#d55e00" stroke="#d55e00" stroke-width="11""##,
        radius: 8,
    },
    Pen {
        style: r##"fill="#000000" stroke="#000000" stroke-width="4" stroke-dasharray="6 8 12 8 6 0""##,
        radius: 4,
    },
];

// How many different banks the addresses of the load have: each sets its bit. (To ask each bank for its cells takes some thirty times as many addresses.)
fn entered(stride: Stride, column: usize) -> usize
    ensures { result ≤ 16 }
{
    let load = Access {
        way: Way::Vertical,
        stride,
        at: column,
    };
    let mut seen = 0u16;
    for i in 0..16 {
        seen |= 1 << stride.bank(load.address(i));
    }
    seen.count_ones() as usize
}

fn height(stride: Stride, column: usize) -> usize
    ensures { result ≤ 420 }
{
    420 - 20 * entered(stride, column)
}

fn counts(out: Stdout) {
    let _ = println!(out; r#"<g text-anchor="end">"#);
    for k in 0..9 {
        let _ = println!(out;
            r##"<path d="M80 {}H720" stroke="#d0d0d0"/>"##,
            420 - 40 * k
        );
        svg::label(out, 70, 425 - 40 * k, 2 * k);
    }
    let _ = println!(out; "</g>");
}

fn axes(out: Stdout) {
    counts(out);
    svg::columns(out, 445);
    let _ = println!(out;
        r##"<path d="M80 80V420H720" fill="none" stroke="#000000" stroke-width="2"/>"##
    );
    let _ = println!(out;
        r#"<text x="400" y="478" text-anchor="middle" font-size="16">column that the load starts in (its address, 0 to 15)</text>"#
    );
    let _ = println!(out;
        r#"<text x="34" y="250" transform="rotate(-90 34 250)" text-anchor="middle" font-size="16">different banks among its 16 addresses</text>"#
    );
}

fn circle(out: Stdout, pen: Pen, x: usize, y: usize) {
    let _ = println!(out;
        r#"<circle cx="{x}" cy="{y}" r="{}" stroke="none"/>"#,
        pen.radius
    );
}

fn line(out: Stdout, stride: Stride) {
    let _ = print!(out;
        r#"<polyline points="{},{}"#,
        svg::middle(0),
        height(stride, 0)
    );
    for c in 1..16 {
        let _ = print!(out; " {},{}", svg::middle(c), height(stride, c));
    }
    let _ = println!(out; r#"" fill="none"/>"#);
}

fn circles(out: Stdout, stride: Stride, pen: Pen) {
    for c in 0..16 {
        circle(out, pen, svg::middle(c), height(stride, c));
    }
}

// A stride's line and points, and the same beside its name.
fn series(out: Stdout, stride: Stride) {
    let pen = PENS[stride.code];
    let y = 110 + 40 * stride.code;
    let _ = println!(out; "<g {}>", pen.style);
    line(out, stride);
    circles(out, stride, pen);
    let _ = println!(out; r#"<path d="M750 {y}H830"/>"#);
    circle(out, pen, 790, y);
    let _ = println!(out; "</g>");
    let _ = println!(out;
        r#"<text x="850" y="{}">stride 0x{:x} (code {})</text>"#,
        y + 5,
        stride.bytes(),
        stride.code
    );
}

fn note(out: Stdout) {
    let _ = println!(out; r#"<text x="750" y="290">The lines of 0x20, 0x40 and 0x80</text>"#);
    let _ = println!(out; r#"<text x="750" y="312">lie on each other: each of these</text>"#);
    let _ = println!(out; r#"<text x="750" y="334">loads enters all 16 banks.</text>"#);
}

pub fn picture(out: Stdout) {
    svg::begin(out, 1020, 500, &NAME);
    axes(out);
    for code in 0..4 {
        series(out, Stride { code });
    }
    note(out);
    let _ = println!(out; "</svg>");
}
