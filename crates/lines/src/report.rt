// The one line that is said of a fault.
use crate::Job;
use crate::fault::{Fault, Place, Why};
use orders::cursor::text;
use orders::tell::examples;
use std::io::Stderr;
use terms::{End, Refusal};
use text::find::{What, find};
use text::say::{quote, say};
use text::squeeze::clean;

// What was expected in place of what is refused.
fn expected(err: Stderr, end: End, line: &[u8]) {
    match end {
        End::Refused(Refusal::Foreign) => say(err, b"an opcode from 0x80 to 0xdf"),
        End::Refused(_) => say(err, b"an opcode that is documented"),
        End::Unnamed => say(err, b"the name of an instruction"),
        _ => examples(err, text(line, 0)),
    }
}

fn reason(err: Stderr, why: Why, line: &[u8]) {
    match why {
        Why::NoNumber => say(
            err,
            b"expected 1 to 8 hexadecimal digits, with or without 0x",
        ),
        Why::Refused(end) => {
            let _ = print!(err; "refused, {} (expected ", u32::from(end));
            expected(err, end, line);
            say(err, b")");
        }
    }
}

// The line, what is left of the text at fault, and the reason.
#[inline(never)]
fn place(err: Stderr, at: Place<'_>) {
    let mut room = [0u8; 65536];
    let n = clean(at.text, &mut room);
    let left = &room[..n];
    let _ = print!(err; "line {}: ", at.line);
    quote(err, &left[..find(left, 0, What::Feed)], 64);
    say(err, b": ");
    reason(err, at.why, left);
}

// Who speaks, of which file, and the fault.
pub fn tell(err: Stderr, job: Job, file: &[u8], fault: Fault<'_>) {
    match job {
        Job::Names => say(err, b"names: "),
        Job::Words => say(err, b"words: "),
    }
    say(err, file);
    say(err, b": ");
    match fault {
        Fault::Unread => say(err, b"cannot be read"),
        Fault::Long => say(err, b"longer than 65535 bytes"),
        Fault::At(at) => place(err, at),
    }
    say(err, b"\n");
}
