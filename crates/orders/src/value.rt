// Numbers in a line, each with the bound that its place sets.
use crate::cursor::Cursor;
use crate::{Fault, Wanted};
use text::number::number;

// A number up to a bound.
pub(crate) fn up_to(c: Cursor, most: u32, wanted: Wanted) -> Result<u32, Fault> {
    c.read(|text| number(text).filter(|n| *n <= most), wanted)
}

// Any number.
pub(crate) fn any(c: Cursor, wanted: Wanted) -> Result<u32, Fault> {
    c.read(number, wanted)
}

pub(crate) fn address(c: Cursor) -> Result<usize, Fault> {
    let a = up_to(c, 0x1fff, Wanted::Address)?;
    Ok(a as usize)
}

// The code of a stride, 0 to 3.
pub(crate) fn stride(c: Cursor) -> Result<u32, Fault> {
    match any(c, Wanted::Stride)? {
        0x10 => Ok(0),
        0x20 => Ok(1),
        0x40 => Ok(2),
        0x80 => Ok(3),
        _ => Err(c.fault(Wanted::Stride)),
    }
}

// The same behind the text `stride`, without which a form is expected, and what comes behind it.
pub(crate) fn strided<'a>(c: Cursor<'a>, form: Wanted) -> Result<(usize, Cursor<'a>), Fault> {
    if !c.is(b"stride") {
        return Err(c.fault(form));
    }
    let code = stride(c.next())?;
    Ok((code as usize, c.next().next()))
}

// A number that is all that stands there.
pub(crate) fn only(c: Cursor) -> Result<u32, Fault> {
    let n = any(c, Wanted::Number)?;
    c.next().ended()?;
    Ok(n)
}
