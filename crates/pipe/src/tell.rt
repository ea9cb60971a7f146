// The one line that is said of what is not as it should be.
use std::io::Stderr;
use text::args;
use text::say::{quote, say};

// What ends the program with the status 2: too many arguments, one that is no number, a read that failed.
#[derive(Clone, Copy)]
pub enum Wrong {
    Arguments,
    Number(usize),
    Unreadable,
}

impl Wrong {
    pub const STATUS: u32 = 2;
}

// Of an argument that is too long for any number the first bytes are enough.
fn number(rt: HostRuntime, err: Stderr, i: usize) {
    let mut room = [0; 4096];
    let n = args::beginning(rt, i, &mut room);
    quote(err, &room[..n], 64);
    say(err, b": expected a number from 0 to 4294967295\n");
}

pub fn tell(rt: HostRuntime, wrong: Wrong) {
    let err = rt.stderr();
    match wrong {
        Wrong::Arguments => say(err, b"usage: pipe [BUDGET]\n"),
        Wrong::Number(i) => {
            say(err, b"pipe: ");
            number(rt, err, i);
        }
        Wrong::Unreadable => say(err, b"pipe: -: cannot be read\n"),
    }
}
