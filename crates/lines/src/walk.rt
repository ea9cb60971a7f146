// The lines of the input, one after the other.
ghost use Rattle.std.specs.Prelude.{◌<◌, length};

use crate::fault::Fault;
use crate::{Job, to_lines, to_words};
use std::io::Write;
use text::find::{What, blank, feed, find};

// Goes over the text up to the first fault, and writes what its lines are turned into.
#[inline(never)]
pub fn turn<'a, W: Write>(job: Job, text: &'a [u8], out: &mut W) -> Result<(), Fault<'a>>
    requires { length text.now < 65536 }
{
    let mut room = [0u8; 65536];
    for (line, all) in (1u32..).zip(text.split(|&b| feed(b))) {
        let part = &all[..find(all, 0, What::Comment)];
        // Blank lines are many, and soon done.
        let Some(from) = part.iter().position(|&b| !blank(b)) else {
            continue;
        };
        let part = &part[from..];
        match job {
            Job::Names => to_lines::all(line, part, out)?,
            Job::Words => to_words::whole(line, part, &mut room, out)?,
        }
    }
    Ok(())
}
