// Bytes and numbers that stand in a line, up to its end.
ghost use Rattle.std.specs.Prelude.{◌-◌, length};
ghost use Rattle.std.specs.Iterator.{at_most};

use crate::cursor::{Cursor, Texts, whole};
use crate::{Fault, Wanted};
use text::number::{byte, number};

// Bytes that stand in a line, of which there may be as many as the store has.
#[derive(Clone, Copy)]
pub struct Bytes<'a> {
    texts: Texts<'a>,
}

impl<'a> Bytes<'a> {
    // The bytes from a place on, if every text is one, there is one at least, and there is room for all of them in the store.
    pub(crate) fn up_to(from: Cursor<'a>, room: usize) -> Result<Bytes<'a>, Fault> {
        if from.is_end() {
            return Err(from.fault(Wanted::Byte));
        }
        for (n, c) in from.texts().enumerate() {
            // Not by `read`, which hands a fault or a byte back for each: a line may have thousands.
            if byte(c.text()).is_none() {
                return Err(c.fault(Wanted::Byte));
            }
            if n >= room {
                return Err(c.fault(Wanted::NoByteBeyond));
            }
        }
        Ok(Bytes {
            texts: from.texts(),
        })
    }
}

impl<'a> Iterator for Bytes<'a> {
    type Item = u8;

    ghost remaining = { λ s. at_most (length s.texts.rest.line.now - s.texts.rest.at) };

    fn next(&mut self) -> Option<u8> {
        byte(self.texts.next()?.text())
    }
}

// The first sixteen that stand from a place on, if every text up to the line's end is one.
fn first_sixteen<T: Copy + Default, F: Fn(&[u8]) -> Option<T> + Copy>(
    from: Cursor,
    reader: F,
    wanted: Wanted,
) -> Result<[T; 16], Fault>
    requires { F.IsAlwaysCallable reader }
{
    let mut items = [T::default(); 16];
    for (i, c) in from.texts().enumerate() {
        let item = c.read(reader, wanted)?;
        if let Some(place) = items.get_mut(i) {
            *place = item;
        }
    }
    Ok(items)
}

// Sixteen bytes up to the end of the line, or one for all, before which `all` may stand.
pub(crate) fn sixteen(c: Cursor) -> Result<[u8; 16], Fault> {
    let all = c.is(b"all");
    let from = if all { c.next() } else { c };
    let bytes = first_sixteen(from, byte, Wanted::Byte)?;
    match from.texts().count() {
        1 => Ok([bytes[0]; 16]),
        16 if !all => Ok(bytes),
        _ => Err(whole(c.line, Wanted::Bytes)),
    }
}

// Sixteen numbers up to the end of the line.
pub(crate) fn banks(c: Cursor) -> Result<[u32; 16], Fault> {
    let numbers = first_sixteen(c, number, Wanted::Number)?;
    if c.texts().count() != 16 {
        return Err(whole(c.line, Wanted::Numbers));
    }
    Ok(numbers)
}
