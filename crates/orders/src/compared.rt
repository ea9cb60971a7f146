// The lines of EXPECTED that are compared.
use crate::bytes::{banks, sixteen};
use crate::cursor::Cursor;
use crate::parts::held;
use crate::shown::subject;
use crate::value::only;
use crate::{Expected, Fault, Subject, Wanted};

// What stands behind a register, a row, a column, eight cells.
fn valued(c: Cursor, s: Subject) -> Result<Expected, Fault> {
    match s {
        Subject::Word(kind, n) => held(c, kind, n).map(Expected::Part),
        Subject::Bank(_) => Err(c.fault(Wanted::CellForm)),
        _ => sixteen(c).map(|bytes| Expected::Sixteen(s, bytes)),
    }
}

// What is left of a run: a line whose first text is no register and no part of the store.
fn counted(c: Cursor) -> Result<Expected, Fault> {
    let behind = c.next();
    match c.text() {
        b"answer" => only(behind).map(Expected::Answer),
        b"steps" => only(behind).map(Expected::Steps),
        b"cells" => only(behind).map(Expected::Cells),
        b"clipped" => only(behind).map(Expected::Clipped),
        b"banks" => banks(behind).map(Expected::Banks),
        _ => Err(c.fault(Wanted::Compared)),
    }
}

// A line that has a text.
pub(crate) fn compared(line: &[u8]) -> Result<Expected, Fault> {
    let c = Cursor::first(line);
    match subject(c)? {
        Some((s, behind)) => valued(behind, s),
        None => counted(c),
    }
}
