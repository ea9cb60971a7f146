// What is left of a line of a text: its texts, with one space between two.
ghost use Rattle.std.specs.Prelude.{◌≤◌, length};

use text::count::at_most;
use text::find::{What, find};
use text::squeeze::squeeze;

// Puts what is left of a line at the start of room, and answers it.
pub fn clean<'a>(line: &[u8], room: &'a mut [u8]) -> &'a [u8]
    ensures { length result.now ≤ length room.old }
{
    let cut = find(line, 0, What::Comment);
    // Empty lines and comments are many, and soon done. No line is longer than the room that the callers have.
    if cut == 0 || cut > room.len() {
        return &[];
    }
    let n = squeeze(&line[..cut], room);
    let n = at_most(n, room);
    &room[..n]
}
