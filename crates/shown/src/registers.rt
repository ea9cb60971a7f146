// Registers, each on a line, as the last part of a run shows them.
ghost use Rattle.std.specs.Prelude.{◌≡◌, ◌+◌, ◌<◌, ◌≤◌, [], length, take, drop};

use crate::figures::bytes;
use crate::parts::show;
use crate::view::View;
use orders::{Field, Kind};
use std::io::Stdout;
use text::print::text;

// What a register's word is shown by. Where bits of $c are set that have no name its parts would not say all.
fn parts_of(kind: Kind, word: u32) -> &'static [Field] {
    match kind {
        Kind::A => &[Field::Addr, Field::Limit, Field::Stride],
        Kind::R => &[Field::Whole],
        Kind::C if word & 0xfffff8ff != 0 => &[Field::Whole],
        Kind::C => &[Field::Sign, Field::Zero, Field::End],
        Kind::Vc => &[Field::Signs, Field::Zeros],
    }
}

// `$a`: what the number of a register stands behind.
fn letter(kind: Kind) -> &'static str {
    match kind {
        Kind::A => "$a",
        Kind::R => "$r",
        Kind::C => "$c",
        Kind::Vc => "$vc",
    }
}

// `$a3`: the name of a register.
pub fn named(out: Stdout, kind: Kind, n: usize) {
    let _ = print!(out; "{}{n}", letter(kind));
}

// The register n of a kind, which holds this value.
pub fn word(out: Stdout, kind: Kind, n: usize, value: u32) {
    named(out, kind, n);
    for &part in parts_of(kind, value) {
        show(out, part, value);
    }
    text(out, b"\n");
}

// `$v3 `, which its bytes follow.
pub fn vector_named(out: Stdout, n: usize) {
    let _ = print!(out; "$v{n} ");
}

// The register n of $v, which holds these bytes.
pub fn vector(out: Stdout, n: usize, value: &[u8]) {
    vector_named(out, n);
    bytes(out, value);
    text(out, b"\n");
}

// The sixteen bytes from a place on; none where there are not so many.
pub fn sixteen(from: &[u8], at: usize) -> &[u8]
    ensures there { at + 16 ≤ length from.now → result.now ≡ take 16 (drop at from.now) }
    ensures none { length from.now < at + 16 → result.now ≡ [] }
{
    match from.get(at..) {
        Some(rest) => rest.get(..16).unwrap_or(&[]),
        None => &[],
    }
}

// Those of a kind that are not 0, or all.
fn words(out: Stdout, all: bool, kind: Kind, values: &[u32]) {
    for (n, &value) in values.iter().enumerate() {
        if all || value != 0 {
            word(out, kind, n, value);
        }
    }
}

fn vectors(out: Stdout, all: bool, state: View<'_>) {
    for n in 0..32 {
        let value = state.vector(n);
        if all || value.iter().any(|&b| b != 0) {
            vector(out, n, value);
        }
    }
}

// The registers that are not 0, or all.
pub fn registers(out: Stdout, all: bool, state: View<'_>) {
    for kind in [Kind::A, Kind::R, Kind::C, Kind::Vc] {
        words(out, all, kind, state.words(kind));
    }
    vectors(out, all, state);
}
