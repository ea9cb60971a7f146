// The load: its addresses in sixteen rows of the store, each as wide as the stride, and beside them the banks and cells that it enters.
ghost use Rattle.std.specs.Prelude.{◌≤◌, ◌<◌};

use crate::access::{Access, Entered};
use crate::stride::Stride;
use crate::svg;
use std::io::Stdout;
use terms::Way;

// The right edge of the squares.
fn right(stride: Stride) -> usize
    ensures { result ≤ 2670 }
{
    110 + 20 * stride.bytes()
}

// (No Display: the type is another crate's.)
fn kind(way: Way) -> &'static str {
    match way {
        Way::Horizontal => "Horizontal",
        Way::Vertical => "Vertical",
        Way::Scalar => "Scalar",
    }
}

fn begin(out: Stdout, load: Access, wide: usize) {
    let name = format_args!(
        "{} load at 0x{:04x} under stride code {} (0x{:x} bytes)",
        kind(load.way),
        load.at,
        load.stride.code,
        load.stride.bytes()
    );
    svg::begin(out, wide, 510, &name);
}

fn titles(out: Stdout, stride: Stride) {
    let width = stride.bytes();
    let _ = println!(out;
        r#"<text x="{}" y="74" text-anchor="middle" font-size="16">column (address mod 0x{width:x})</text>"#,
        110 + 10 * width
    );
    let _ = println!(out;
        r#"<text x="30" y="270" transform="rotate(-90 30 270)" text-anchor="middle" font-size="16">row (its first address)</text>"#
    );
}

fn columns(out: Stdout, stride: Stride) {
    let _ = println!(out; r#"<g text-anchor="middle" font-size="12">"#);
    for c in 0..stride.bytes() {
        let _ = println!(out; r#"<text x="{}" y="102">{c:x}</text>"#, 120 + 20 * c);
    }
    let _ = println!(out; "</g>");
}

// The first address of row r. The block that the load lies in has zeros where the row's number goes.
fn first(load: Access, r: usize) -> usize {
    let code = load.stride.code;
    load.at & 0x1fff << (8 + code) | r << (4 + code)
}

fn rows(out: Stdout, load: Access) {
    let _ = println!(out; r#"<g text-anchor="end">"#);
    for r in 0..16 {
        let _ = println!(out;
            r#"<text x="102" y="{}">0x{:04x}</text>"#,
            125 + 20 * r,
            first(load, r)
        );
    }
    let _ = println!(out; "</g>");
}

fn lines_across(out: Stdout, stride: Stride) {
    for r in 1..16usize {
        let _ = print!(out; "M110 {}H{}", 110 + 20 * r, right(stride));
    }
}

// The line on the left of column c.
fn line_down(out: Stdout, c: usize)
    requires { c < 128 }
{
    let _ = print!(out; "M{} 110V430", 110 + 20 * c);
}

fn lines_down(out: Stdout, stride: Stride) {
    for c in 1..stride.bytes() {
        line_down(out, c);
    }
}

// At every sixteenth column, since a row of sixteen bytes starts there.
fn bars(out: Stdout, stride: Stride) {
    for c in (16..stride.bytes()).step_by(16) {
        line_down(out, c);
    }
}

fn grid(out: Stdout, stride: Stride) {
    let _ = print!(out; r#"<path d=""#);
    lines_across(out, stride);
    lines_down(out, stride);
    let _ = println!(out; r##"" stroke="#d0d0d0"/>"##);
    let _ = print!(out; r#"<path d="M110 110H{}V430H110Z"#, right(stride));
    bars(out, stride);
    let _ = println!(out; r##"" fill="none" stroke="#606060"/>"##);
}

fn square(out: Stdout, stride: Stride, a: usize)
    requires { a < 8192 }
{
    let width = stride.bytes();
    let x = 111 + 20 * (a % width);
    let y = 111 + 20 * (a / width % 16);
    let bank = stride.bank(a);
    svg::square(out, x, y, 18, bank);
    svg::bank(out, x + 9, y + 13, bank);
}

fn squares(out: Stdout, load: Access) {
    let _ = println!(out; r#"<g text-anchor="middle" font-size="12">"#);
    for i in 0..load.count() {
        square(out, load.stride, load.address(i));
    }
    let _ = println!(out; "</g>");
}

// The line of a bank, number n of the list.
fn entry(out: Stdout, stride: Stride, bank: usize, entered: Entered, n: usize)
    requires { (bank < 16) × (n < 16) }
{
    svg::square(out, right(stride) + 20, 111 + 20 * n, 18, bank);
    let x = right(stride) + 46;
    let y = 125 + 20 * n;
    let _ = println!(out;
        r#"<text x="{x}" y="{y}">bank {bank}: cell {}, {}</text>"#,
        entered.cell, entered.halves
    );
}

// Lists the banks that are entered, and says how many there are.
fn list(out: Stdout, load: Access) -> usize
    ensures { result ≤ 16 }
{
    let mut n = 0;
    for bank in 0..16 {
        if let Some(entered) = load.entered(bank) {
            entry(out, load.stride, bank, entered, n);
            n += 1;
        }
    }
    n
}

fn counts(out: Stdout, load: Access, entered: usize)
    requires { entered ≤ 16 }
{
    let x = right(load.stride) + 20;
    let y = 135 + 20 * entered;
    let cells = banks::cells(load.way, load.stride.code);
    let _ = println!(out;
        r#"<text x="{x}" y="{y}">{} addresses, {entered} banks, {cells} cells</text>"#,
        load.count()
    );
}

fn caption(out: Stdout, x: usize) {
    let _ = println!(out;
        r#"<text x="{x}" y="490" text-anchor="middle">A marked square is an address of the load; the number and the colour are its bank.</text>"#
    );
}

pub fn picture(out: Stdout, load: Access) {
    let wide = right(load.stride) + 290;
    begin(out, load, wide);
    titles(out, load.stride);
    columns(out, load.stride);
    rows(out, load);
    grid(out, load.stride);
    squares(out, load);
    let entered = list(out, load);
    counts(out, load, entered);
    caption(out, wide / 2);
    let _ = println!(out; "</svg>");
}
