// Words into lines: the texts of a line of input, each the number of an instruction word.
ghost use Rattle.std.specs.Prelude.{◌<◌, length};

use crate::fault::{Fault, Why};
use orders::word::spell;
use std::io::Write;
use text::find::blank;
use text::number::hex;

// One text: the line of its word is written.
fn one<W: Write>(text: &[u8], out: &mut W) -> Result<(), Why> {
    let word = hex(text).ok_or(Why::NoNumber)?;
    let mut line = [0u8; 64];
    let n = spell(word, &mut line).map_err(Why::Refused)?;
    let _ = out.write_all(&line[..n]);
    Ok(())
}

// The texts of a line without its comment, up to the first fault.
pub fn all<'a, W: Write>(line: u32, part: &'a [u8], out: &mut W) -> Result<(), Fault<'a>>
    requires { length part.now < 65536 }
{
    for text in part.split(|&b| blank(b)).filter(|text| !text.is_empty()) {
        if let Err(why) = one(text, out) {
            return Err(Fault::at(line, text, why));
        }
    }
    Ok(())
}
