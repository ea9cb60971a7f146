// What is left of a line without its comment, without the blanks before and after, and with one space for those between.
ghost use Rattle.std.specs.Prelude.{◌+◌, ◌<◌, ◌≤◌, length};
ghost use Rattle.text.specs.Counts.{IsPrefixLen};

use crate::find::{What, blank, find};

// Whether a space may stand behind these bytes: neither at the start nor behind another one.
fn may_part(done: &[u8]) -> bool {
    done.last().is_some_and(|&b| b != b' ')
}

// One byte more behind the first n, or none. (There is no heap: the room is the caller's, and how much of it is taken goes beside it.)
fn put(out: &mut [u8], n: usize, b: u8) -> usize
    requires { n < length out.old }
    ensures { result ≤ n + 1 }
{
    if !blank(b) {
        out[n] = b;
        return n + 1;
    }
    if may_part(&out[..n]) {
        out[n] = b' ';
        return n + 1;
    }
    n
}

// Puts what is left of the part at the start of out, and answers how many bytes that is.
pub fn squeeze(part: &[u8], out: &mut [u8]) -> usize
    requires { length part.now ≤ length out.old }
    ensures { result ≤ length part.now }
{
    let mut n = 0;
    for &b in part {
        n = put(out, n, b);
    }
    let done = &out[..n];
    done.strip_suffix(b" ").unwrap_or(done).len()
}

// Puts what is left of a line, and a line feed, at the start of room, and answers how many bytes that is.
pub fn clean(line: &[u8], room: &mut [u8]) -> usize
    requires { length line.now < length room.old }
    ensures { IsPrefixLen result room.new }
{
    let cut = find(line, 0, What::Comment);
    let n = squeeze(&line[..cut], room);
    room[n] = b'\n';
    n + 1
}
