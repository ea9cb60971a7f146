// The lines that begin with a dot. A cursor stands behind what is known of the line already.
use crate::bytes::{Bytes, sixteen};
use crate::cursor::Cursor;
use crate::parts::held;
use crate::register::{Register, register_of};
use crate::shown::subject;
use crate::value::{address, only, strided};
use crate::{Fault, Order, Wanted};
use text::number::byte;

fn set(c: Cursor<'_>) -> Result<Order<'_>, Fault> {
    match c.read(register_of, Wanted::Register)? {
        Register::Word(kind, n) => Ok(Order::Set(held(c.next(), kind, n)?)),
        Register::Vector(n) => Ok(Order::SetVector(n, sixteen(c.next())?)),
    }
}

fn bytes(c: Cursor<'_>) -> Result<Order<'_>, Fault> {
    let (code, at) = strided(c, Wanted::BytesForm)?;
    if !at.is(b"at") {
        return Err(at.fault(Wanted::BytesForm));
    }
    let place = at.next();
    let first = address(place)?;
    // As many bytes as the store has from the address on.
    let bytes = Bytes::up_to(place.next(), 0x2000usize.saturating_sub(first))?;
    Ok(Order::Bytes(code, first, bytes))
}

fn fill_address(c: Cursor<'_>) -> Result<Order<'_>, Fault> {
    let (code, behind) = strided(c, Wanted::FillForm)?;
    behind.ended()?;
    Ok(Order::FillAddress(code))
}

fn fill_bank(c: Cursor<'_>) -> Result<Order<'_>, Fault> {
    c.ended()?;
    Ok(Order::FillBank)
}

fn fill_byte(c: Cursor<'_>) -> Result<Order<'_>, Fault> {
    let b = c.read(byte, Wanted::Fill)?;
    c.next().ended()?;
    Ok(Order::FillByte(b))
}

fn fill(c: Cursor<'_>) -> Result<Order<'_>, Fault> {
    match c.text() {
        b"bank" => fill_bank(c.next()),
        b"address" => fill_address(c.next()),
        _ => fill_byte(c),
    }
}

fn show(c: Cursor<'_>) -> Result<Order<'_>, Fault> {
    let Some((s, behind)) = subject(c)? else {
        return Err(c.fault(Wanted::Shown));
    };
    behind.ended()?;
    Ok(Order::Show(s))
}

// Whether the line's first text is one of those that set the start, whatever stands behind it.
pub(crate) fn sets(line: &[u8]) -> bool {
    matches!(
        Cursor::first(line).text(),
        b".set" | b".bytes" | b".fill" | b".budget"
    )
}

// A line that sets the start, and what is expected of its first text.
pub(crate) fn setting(line: &[u8], wanted: Wanted) -> Result<Order<'_>, Fault> {
    let c = Cursor::first(line);
    let behind = c.next();
    match c.text() {
        b".set" => set(behind),
        b".bytes" => bytes(behind),
        b".fill" => fill(behind),
        b".budget" => Ok(Order::Budget(only(behind)?)),
        _ => Err(c.fault(wanted)),
    }
}

// Any line of a listing that begins with a dot.
pub(crate) fn dotted(line: &[u8]) -> Result<Order<'_>, Fault> {
    let c = Cursor::first(line);
    if c.is(b".show") {
        return show(c.next());
    }
    setting(line, Wanted::Dot)
}
