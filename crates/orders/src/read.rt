// What a line asks for. A line that has no text asks for nothing.
use crate::compared::compared;
use crate::cursor::Cursor;
use crate::dots::{dotted, setting};
use crate::parts::held;
use crate::{Expected, Fault, Kind, Order, Part, Triple, Wanted, dots, steps};

// A line of a listing.
pub fn order(line: &[u8]) -> Result<Option<Order<'_>>, Fault> {
    match line.first() {
        None => Ok(None),
        Some(b'.') => dotted(line).map(Some),
        Some(_) => Ok(Some(Order::Step(step(line)?))),
    }
}

// Whether a line is to set the start, good or not: its first text is .set, .bytes, .fill or .budget.
pub fn sets(line: &[u8]) -> bool {
    dots::sets(line)
}

// A line of EXPECTED that begins with a dot.
pub fn start(line: &[u8]) -> Result<Option<Order<'_>>, Fault> {
    if line.is_empty() {
        return Ok(None);
    }
    setting(line, Wanted::StartDot).map(Some)
}

// A line of EXPECTED that does not.
pub fn expected(line: &[u8]) -> Result<Option<Expected>, Fault> {
    if line.is_empty() {
        return Ok(None);
    }
    compared(line).map(Some)
}

// A step alone, and nothing else.
pub fn step(line: &[u8]) -> Result<Triple, Fault> {
    steps::step(line)
}

// What `.set $a0` takes behind the register.
pub fn value(line: &[u8]) -> Result<Part, Fault> {
    held(Cursor::first(line), Kind::A, 0)
}
