// What a register of 32 bits holds: a whole word, or parts of it with their names and values.
use crate::cursor::Cursor;
use crate::fields::{field_of, most, placed, value_of};
use crate::value::{stride, up_to};
use crate::{Fault, Field, Kind, Part, Wanted};
use text::number::number;

// Bits of a word, in their places: those of mask have this value.
#[derive(Clone, Copy)]
struct Bits {
    mask: u32,
    value: u32,
}

impl Bits {
    // With others, which hold where both have a bit.
    fn with(self, later: Bits) -> Bits {
        Bits {
            mask: self.mask | later.mask,
            value: self.value & !later.mask | later.value,
        }
    }
}

// What is expected where neither a word nor a part's name stands.
fn word_of(kind: Kind) -> Wanted {
    match kind {
        Kind::A => Wanted::WordOfA,
        Kind::R => Wanted::WordOfR,
        Kind::C => Wanted::WordOfC,
        Kind::Vc => Wanted::WordOfVc,
    }
}

// A part's value: of a stride its code is held.
fn value_at(c: Cursor, f: Field) -> Result<u32, Fault> {
    if f == Field::Stride {
        return stride(c);
    }
    up_to(c, most(f), value_of(f))
}

// The part whose name stands at a place, with its value.
fn part_at(name: Cursor, kind: Kind) -> Result<Bits, Fault> {
    let f = name.read(|text| field_of(kind, text), word_of(kind))?;
    let n = value_at(name.next(), f)?;
    Ok(Bits {
        mask: placed(f, most(f)),
        value: placed(f, n),
    })
}

// Parts up to the end of the line, each of two texts; there is one at least.
fn parts(from: Cursor, kind: Kind) -> Result<Bits, Fault> {
    let mut bits = Bits { mask: 0, value: 0 };
    for name in from.texts().step_by(2) {
        bits = bits.with(part_at(name, kind)?);
    }
    if bits.mask == 0 {
        return Err(from.fault(word_of(kind)));
    }
    Ok(bits)
}

// A word, behind which nothing stands, or parts of one.
fn bits_from(c: Cursor, kind: Kind) -> Result<Bits, Fault> {
    let Some(value) = number(c.text()) else {
        return parts(c, kind);
    };
    c.next().ended()?;
    Ok(Bits {
        mask: 0xffffffff,
        value,
    })
}

// What stands behind the register n of a kind, up to the end of the line.
pub(crate) fn held(c: Cursor, kind: Kind, n: usize) -> Result<Part, Fault> {
    let Bits { mask, value } = bits_from(c, kind)?;
    Ok(Part {
        kind,
        n,
        mask,
        value,
    })
}
