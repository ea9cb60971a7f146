// The text of one operand, packed: a space and what it shows, or nothing.
ghost use Rattle.std.specs.Prelude.{◌≡◌, ◌%◌, ◌^◌, ◌<◌, cond, ltb};
ghost use Rattle.names.specs.Line.{numeral};
ghost use Rattle.names.specs.Table.{imm, half};
ghost use Rattle.names.specs.Inner.Code.{packed, piece_of, piece_at};

use crate::pack::{decimal, hex, last_hex};

// A register of flags, behind the space and the first letters of its name; nothing where the field has none of the four.
fn flags(p: u64, w: u32) -> u64
    requires { p < 2 ^ 40 }
    ensures { result ≡ cond (ltb (w % 8) 4) (packed p (numeral 4 10 (w % 8))) 1 }
{
    let v = w % 8;
    if v < 4 {
        return decimal(p, v);
    }
    1
}

fn signed(w: u32) -> u64
    ensures { result ≡ packed 1 (piece_of imm w) }
{
    let v = w / 8 % 2048;
    if v < 1024 {
        return hex(0x01203078, v);
    }
    last_hex(0x01202d3078, 2048 - v)
}

fn low_high(w: u32) -> u64
    ensures { result ≡ packed 1 (piece_of half w) }
{
    if w / 8 % 2 == 0 {
        return 0x01206c6f;
    }
    0x01206869
}

// The text of an operand, by its number in the table's forms (form_of, whose contract fixes these numbers): 0 is none.
pub fn text(o: u32, w: u32) -> u64
    ensures { result ≡ packed 1 (piece_at o w) }
{
    match o {
        0 => 1,
        1 => decimal(0x01202461, w / 524288 % 32),
        2 => decimal(0x01202461, w / 16384 % 32),
        3 => decimal(0x01202461, w / 512 % 32),
        4 => decimal(0x01202472, w / 524288 % 32),
        5 => decimal(0x01202472, w / 16384 % 32),
        6 => decimal(0x01202476, w / 524288 % 32),
        7 => decimal(0x01202476, w / 16384 % 32),
        8 => decimal(0x01202476, w / 512 % 32),
        9 => decimal(0x01202476, w / 16 % 32),
        10 => flags(0x01202463, w),
        11 => flags(0x0120247663, w),
        12 => 0x0120247663,
        13 => hex(0x01203078, w / 8 % 256),
        14 => hex(0x01203078, w / 8 % 2048),
        15 => signed(w),
        16 => hex(0x01203078, w % 65536),
        17 => hex(0x01203078, w / 8 % 16),
        18 => hex(0x01203078, w / 524288 % 16),
        _ => low_high(w),
    }
}
