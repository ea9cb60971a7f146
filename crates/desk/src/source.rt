// A file of the arguments, or standard input, read whole.
ghost use Rattle.std.specs.Prelude.{◌≤◌, IfOk, length};
ghost use Rattle.text.specs.Counts.{IsPrefixLen};

use crate::tell::Wrong;
use std::fs::File;
use std::io;
use text::args;
use text::input::fill;

// The most bytes that a file may have.
const MOST: usize = 65535;

// Puts the name that argument i is at the start of room, and answers it. Of one that is too long for any file its first bytes are enough.
pub fn name<'a>(rt: HostRuntime, i: usize, room: &'a mut [u8]) -> &'a [u8]
    ensures { length result.now ≤ length room.old }
{
    let n = args::beginning(rt, i, room);
    &room[..n]
}

// std opens a file by a name in UTF-8 alone: one of any other name counts as one that cannot be opened.
fn open(rt: HostRuntime, name: &[u8]) -> Option<File> {
    let path = str::from_utf8(name).ok()?;
    File::open(&rt, path).ok()
}

// Puts the bytes of the file of a name, or of standard input, at the start of room: as many as there is room for.
fn filled(rt: HostRuntime, name: &[u8], room: &mut [u8]) -> Result<usize, Wrong>
    ensures { IfOk result (λ n. IsPrefixLen n room.new) }
{
    let got = if matches!(name, b"-") {
        fill(&mut rt.stdin(), room)
    } else {
        let Some(mut file) = open(rt, name) else {
            return Err(Wrong::Unreadable);
        };
        fill(&mut file, room)
    };
    got.map_err(|_| Wrong::Unreadable)
}

// The bytes of the file of a name, or of standard input, put into room, which has one byte more than a file may have.
pub fn read<'a>(rt: HostRuntime, name: &[u8], room: &'a mut [u8]) -> Result<&'a [u8], Wrong>
    ensures { IfOk result (λ text. length text.now ≤ length room.old) }
{
    let n = filled(rt, name, room)?;
    if n > MOST {
        return Err(Wrong::TooLong);
    }
    Ok(&room[..n])
}
