// The line of a word.
ghost use Rattle.std.specs.Prelude.{IfOk};
ghost use Rattle.text.specs.Counts.{IsPrefixLen};

use terms::End;
use text::count::at_most;

// Puts the line of a word, with its line feed, at the start of out, and answers its length, or why the word has none. 64 bytes are room enough for any.
// (No heap: the room is the caller's, and the length stands beside it.)
pub fn spell(word: u32, out: &mut [u8]) -> Result<usize, End>
    ensures { IfOk result (λ n. IsPrefixLen n out.new) }
{
    let written = names::write_line(word, out);
    match written.end {
        End::Done => Ok(at_most(written.length as usize, out)),
        refused => Err(refused),
    }
}
