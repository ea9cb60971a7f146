// The one line that is said of what is not as it should be.
use crate::lines::clean;
use crate::pages::Page;
use orders::Fault;
use std::io::Stderr;
use text::find::feed;
use text::say;
use text::say::say;

// What is wrong has been said, and the command ends with the status 2.
#[derive(Clone, Copy)]
pub struct Told;

impl Told {
    pub const STATUS: u32 = 2;
}

// What is wrong with a page: it cannot be read, or is too long; it has nothing that it is for; or the line of this number, the first one's is 0, is at fault.
#[derive(Clone, Copy)]
pub enum Wrong {
    Unreadable,
    TooLong,
    NoStep,
    NoneCompared,
    Line(usize, Fault),
}

pub fn usage(err: Stderr) -> Told {
    say(
        err,
        b"usage: desk run [--quiet] [--all] FILE.., desk check FILE EXPECTED, desk explain STEP [VALUE]\n",
    );
    Told
}

#[inline(never)]
fn line(err: Stderr, text: &[u8], i: usize, fault: Fault) {
    let mut room = [0; 65536];
    let line = text.split(|&b| feed(b)).nth(i).unwrap_or(&[]);
    let _ = print!(err; "line {}: ", i.wrapping_add(1));
    orders::tell::tell(err, clean(line, &mut room), fault);
}

// What is wrong with a page. `who` is the command's word.
pub fn page(err: Stderr, who: &str, page: Page<'_>, wrong: Wrong) -> Told {
    let _ = print!(err; "{who}: ");
    say(err, page.name);
    say(err, b": ");
    match wrong {
        Wrong::Unreadable => say(err, b"cannot be read\n"),
        Wrong::TooLong => say(err, b"longer than 65535 bytes\n"),
        Wrong::NoStep => say(err, b"expected a step or a dot line\n"),
        Wrong::NoneCompared => say(err, b"expected a line to compare\n"),
        Wrong::Line(i, fault) => line(err, page.text, i, fault),
    }
    Told
}

// What is wrong with an argument of `explain`.
pub fn argument(err: Stderr, line: &[u8], fault: Fault) -> Told {
    say(err, b"explain: ");
    orders::tell::tell(err, line, fault);
    Told
}

pub fn long_argument(err: Stderr) -> Told {
    say(err, b"explain: longer than 4096 bytes\n");
    Told
}
