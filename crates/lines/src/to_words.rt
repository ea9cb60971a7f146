// Lines into words: what is left of a line of input is the line of an instruction word.
ghost use Rattle.std.specs.Prelude.{◌<◌, length};

use crate::fault::{Fault, Why};
use std::io::Write;
use terms::End;
use text::squeeze::clean;

// What is left of a line, with a line feed: if anything is, its word is written.
fn one<W: Write>(left: &[u8], out: &mut W) -> Result<(), Why> {
    if left == b"\n".as_slice() {
        return Ok(());
    }
    let read = names::read_line(left);
    if read.end != End::Done {
        return Err(Why::Refused(read.end));
    }
    let _ = writeln!(out, "{:08x}", read.word);
    Ok(())
}

// A line without its comment. What is left of it is put in the room, which is given since it is too large to be made anew for each line.
pub fn whole<'a, W: Write>(
    line: u32,
    part: &'a [u8],
    room: &mut [u8; 65536],
    out: &mut W,
) -> Result<(), Fault<'a>>
    requires { length part.now < 65536 }
{
    let n = clean(part, room);
    match one(&room[..n], out) {
        Ok(()) => Ok(()),
        Err(why) => Err(Fault::at(line, part, why)),
    }
}
