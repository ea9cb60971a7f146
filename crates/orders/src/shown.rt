// What can be shown, and compared: a register, a row, a column, a bank or eight cells of one. Each comes with the text behind it.
use crate::cursor::Cursor;
use crate::register::{Register, register_of};
use crate::value::{address, strided, up_to};
use crate::{Fault, Subject, Wanted};

// Behind `row` or `column`.
fn lane<'a, F: FnOnce(usize, usize) -> Subject>(
    c: Cursor<'a>,
    way: F,
) -> Result<(Subject, Cursor<'a>), Fault>
    requires { F.IsAlwaysCallable way }
{
    let a = address(c)?;
    let (code, behind) = strided(c.next(), Wanted::RowForm)?;
    Ok((way(code, a), behind))
}

// Behind `bank`.
fn bank(c: Cursor<'_>) -> Result<(Subject, Cursor<'_>), Fault> {
    let n = up_to(c, 15, Wanted::Bank)? as usize;
    let behind = c.next();
    if !behind.is(b"cell") {
        return Ok((Subject::Bank(n), behind));
    }
    let cell = behind.next();
    let first = up_to(cell, 248, Wanted::Cell)? as usize;
    Ok((Subject::Cells(n, first), cell.next()))
}

fn store(c: Cursor<'_>) -> Result<Option<(Subject, Cursor<'_>)>, Fault> {
    match c.text() {
        b"row" => lane(c.next(), Subject::Row).map(Some),
        b"column" => lane(c.next(), Subject::Column).map(Some),
        b"bank" => bank(c.next()).map(Some),
        _ => Ok(None),
    }
}

// What begins at a place, if it is one of them.
pub(crate) fn subject(c: Cursor<'_>) -> Result<Option<(Subject, Cursor<'_>)>, Fault> {
    match register_of(c.text()) {
        Some(Register::Word(kind, n)) => Ok(Some((Subject::Word(kind, n), c.next()))),
        Some(Register::Vector(n)) => Ok(Some((Subject::Vector(n), c.next()))),
        None => store(c),
    }
}
