// A step: an instruction by its name or its word, and its side inputs.
use crate::cursor::{Cursor, whole};
use crate::value::any;
use crate::{Fault, Triple, Wanted};
use terms::End;
use text::number::word;
use text::squeeze::clean;

// The longest line has fewer bytes. What is longer is none after the cut either, and its name stands at its start.
const LONGEST: usize = 64;

// The word of a line of names. (No heap: what is left of the line is put into a room of fixed size, with its length beside it.)
fn named(text: &[u8]) -> Result<u32, Wanted> {
    let mut room = [0u8; LONGEST + 1];
    let n = clean(&text[..text.len().min(LONGEST)], &mut room);
    let read = names::read_line(&room[..n]);
    match read.end {
        End::Done => Ok(read.word),
        End::Unnamed => Err(Wanted::Name),
        _ => Err(Wanted::Operands),
    }
}

fn instruction(text: &[u8]) -> Result<u32, Wanted> {
    match word(text) {
        Some(n) => Ok(n),
        None => named(text),
    }
}

// The side inputs behind `@`: the index, and the mask word, which is 0 where it is not said.
fn sided(c: Cursor) -> Result<(u32, u32), Fault> {
    let side = any(c, Wanted::Side)?;
    let behind = c.next();
    if behind.is_end() {
        return Ok((side, 0));
    }
    let mask = any(behind, Wanted::Mask)?;
    behind.next().ended()?;
    Ok((side, mask))
}

// The side index without `@` is the field SRC2.
pub(crate) fn step(line: &[u8]) -> Result<Triple, Fault> {
    let sign = Cursor::first(line).texts().find(|c| c.is(b"@"));
    let before = sign.map_or(line, |c| c.before());
    if before.is_empty() {
        return Err(whole(line, Wanted::Name));
    }
    let head = match before {
        [rest @ .., b' ' | b'\n'] => rest,
        _ => before,
    };
    // The head begins where the line does, so that places in it are places in the line.
    let word = instruction(head).map_err(|wanted| whole(head, wanted))?;
    let (side, mask) = match sign {
        Some(c) => sided(c.next())?,
        None => (word / 512 % 32, 0),
    };
    Ok(Triple { word, side, mask })
}
