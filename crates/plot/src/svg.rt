// What the pictures share: the start of a picture, numbers and squares at their places, the colours of banks.
// A write that fails is let go, and the program goes on. (x and y stay two numbers: the formats name them, and a pair would be taken apart in each.)
ghost use Rattle.std.specs.Prelude.{◌≤◌, ◌<◌};

use std::fmt::Display;
use std::io::Stdout;

// By bank, from dark to light.
const COLOURS: [&str; 16] = [
    "#440154", "#481a6c", "#472f7d", "#414487", "#39568c", "#31688e", "#2a788e", "#23888e",
    "#1f988b", "#22a884", "#35b779", "#54c568", "#7ad151", "#a5db36", "#d2e21b", "#fde725",
];

// A number that is itself the text, at (x, y).
pub fn label(out: Stdout, x: usize, y: usize, n: usize) {
    let _ = println!(out; r#"<text x="{x}" y="{y}">{n}</text>"#);
}

// Where a column's middle is.
pub fn middle(c: usize) -> usize
    requires { c < 16 }
    ensures { 100 ≤ result }
{
    100 + 40 * c
}

// The numbers of the columns, in a row at y.
pub fn columns(out: Stdout, y: usize) {
    let _ = println!(out; r#"<g text-anchor="middle">"#);
    for c in 0..16 {
        label(out, middle(c), y, c);
    }
    let _ = println!(out; "</g>");
}

// A square in the colour of a bank.
pub fn square(out: Stdout, x: usize, y: usize, side: usize, bank: usize)
    requires { bank < 16 }
{
    let colour = COLOURS[bank];
    let _ = println!(out;
        r#"<rect x="{x}" y="{y}" width="{side}" height="{side}" fill="{colour}"/>"#
    );
}

// A bank's number, at (x, y) on its colour: white on the dark ones, black on the light ones.
pub fn bank(out: Stdout, x: usize, y: usize, n: usize) {
    let ink = if n < 7 { "#ffffff" } else { "#000000" };
    let _ = println!(out; r#"<text x="{x}" y="{y}" fill="{ink}">{n}</text>"#);
}

// Up to where a picture's own elements begin: its name stands there as title and as headline.
pub fn begin(out: Stdout, width: usize, height: usize, name: &impl Display) {
    let _ = print!(out;
        r#"<svg xmlns="http://www.w3.org/2000/svg" viewBox="0 0 {width} {height}" width="{width}" height="{height}""#
    );
    let _ = println!(out; r#" role="img" font-family="sans-serif" font-size="15">"#);
    let _ = println!(out; "<title>{name}</title>");
    let _ = println!(out; r##"<rect width="100%" height="100%" fill="#ffffff"/>"##);
    let _ = println!(out;
        r#"<text x="{}" y="38" text-anchor="middle" font-size="20">{name}</text>"#,
        width / 2
    );
}
