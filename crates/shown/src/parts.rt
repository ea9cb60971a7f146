// The parts of registers: how their names and values are written.
use crate::figures::stride;
use orders::Field;
use orders::fields::bits;
use std::io::Stdout;
use text::print::text;

// The name, with the space before it; Whole has none.
fn name(part: Field) -> &'static str {
    match part {
        Field::Addr => " addr",
        Field::Limit => " limit",
        Field::Stride => " stride",
        Field::Sign => " sign",
        Field::Zero => " zero",
        Field::End => " end",
        Field::Signs => " signs",
        Field::Zeros => " zeros",
        Field::Whole => "",
    }
}

fn value(out: Stdout, part: Field, word: u32) {
    let n = bits(part, word);
    let _ = match part {
        Field::Stride => {
            text(out, b" ");
            return stride(out, n as usize);
        }
        Field::Sign | Field::Zero | Field::End => print!(out; " {n}"),
        Field::Whole => print!(out; " 0x{n:08x}"),
        _ => print!(out; " 0x{n:04x}"),
    };
}

// The part of a word, by its name if it has one: ` addr 0x0040`.
pub fn show(out: Stdout, part: Field, word: u32) {
    let _ = print!(out; "{}", name(part));
    value(out, part, word);
}

// Whether the part differs in two words.
pub fn differs(part: Field, old: u32, new: u32) -> bool {
    bits(part, old) != bits(part, new)
}

// The part of two words: ` addr 0x0040 -> 0x0050`.
pub fn change(out: Stdout, part: Field, old: u32, new: u32) {
    show(out, part, old);
    text(out, b" ->");
    value(out, part, new);
}
