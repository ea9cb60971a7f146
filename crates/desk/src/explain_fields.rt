// The fields of an instruction word that the operands of its line come from.
use std::io::Stdout;
use text::print::text;

fn plain(out: Stdout, name: &str, value: u32) {
    let _ = print!(out; ", {name} {value}");
}

fn digits(out: Stdout, name: &str, value: u32) {
    let _ = print!(out; ", {name} 0x{value:x}");
}

// Eleven bits with a sign.
fn signed(out: Stdout, name: &str, value: u32) {
    let value = i64::from(value % 2048);
    let value = if value < 1024 { value } else { value - 2048 };
    let _ = print!(out; ", {name} {value}");
}

// The field of an operand. Numbers, since `names::form_of` has them as the digits of a word, by its contract. `$vc` has no field.
fn field(out: Stdout, operand: u32, word: u32) {
    match operand {
        1 | 4 | 6 => plain(out, "DST", word >> 19 & 31),
        2 | 5 | 7 => plain(out, "SRC1", word >> 14 & 31),
        3 | 8 => plain(out, "SRC2", word >> 9 & 31),
        9 => plain(out, "SRC3", word >> 4 & 31),
        10 => plain(out, "CDST", word & 7),
        11 => plain(out, "VCDST", word & 7),
        13 => digits(out, "BIMM", word >> 3 & 0xff),
        14 => digits(out, "UIMM", word >> 3 & 0x7ff),
        15 => signed(out, "IMM", word >> 3 & 0x7ff),
        16 => digits(out, "IMM16", word & 0xffff),
        17 => digits(out, "BITOP", word >> 3 & 15),
        18 => digits(out, "CMPOP", word >> 19 & 15),
        19 => plain(out, "SWZLOHI", word >> 3 & 1),
        _ => {}
    }
}

// The line of the fields. The operands are the digits of a number in base 32, the first one's lowest; it has seven of them at most, and 0 is no operand.
pub fn fields(out: Stdout, word: u32) {
    let opcode = word / 16777216;
    let _ = print!(out; "fields opcode 0x{opcode:02x}");
    let operands = names::form_of(opcode);
    for i in 0..7u32 {
        field(out, operands >> (5 * i) & 31, word);
    }
    text(out, b"\n");
}
