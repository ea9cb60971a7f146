// The parts of registers that have names, and which bits of the register's word they are.
ghost use Rattle.std.specs.Prelude.{◌<◌};

use crate::{Field, Kind, Wanted};

// The part of that name of a register of a kind, if it has one.
pub fn field_of(kind: Kind, name: &[u8]) -> Option<Field> {
    match (kind, name) {
        (Kind::A, b"addr") => Some(Field::Addr),
        (Kind::A, b"limit") => Some(Field::Limit),
        (Kind::A, b"stride") => Some(Field::Stride),
        (Kind::C, b"sign") => Some(Field::Sign),
        (Kind::C, b"zero") => Some(Field::Zero),
        (Kind::C, b"end") => Some(Field::End),
        (Kind::Vc, b"signs") => Some(Field::Signs),
        (Kind::Vc, b"zeros") => Some(Field::Zeros),
        _ => None,
    }
}

// The lowest bit of a part.
fn low(f: Field) -> u32
    ensures { result < 32 }
{
    match f {
        Field::Limit | Field::Zeros => 16,
        Field::Stride => 30,
        Field::Sign => 8,
        Field::Zero => 9,
        Field::End => 10,
        _ => 0,
    }
}

// The highest number that it holds.
pub fn most(f: Field) -> u32 {
    match f {
        Field::Addr | Field::Signs | Field::Zeros => 0xffff,
        Field::Limit => 0x3fff,
        Field::Stride => 3,
        Field::Sign | Field::Zero | Field::End => 1,
        Field::Whole => 0xffffffff,
    }
}

// A number in the place of the part.
pub fn placed(f: Field, n: u32) -> u32 {
    n << low(f)
}

// The part of a register's word, as a number.
pub fn bits(f: Field, word: u32) -> u32 {
    word >> low(f) & most(f)
}

// What is expected of its value.
pub fn value_of(f: Field) -> Wanted {
    match f {
        Field::Addr | Field::Signs | Field::Zeros => Wanted::Sixteen,
        Field::Limit => Wanted::Fourteen,
        Field::Stride => Wanted::Stride,
        _ => Wanted::Bit,
    }
}
