// Turns instruction words into lines, or lines into words: docs/NAMES.md says what is read and written.
#![tactic(auto)]

// Functions with a room are kept out of line: so the stack has it only while it is in use.
mod fault;
mod report;
mod to_lines;
mod to_words;
mod walk;

use crate::fault::Fault;
use crate::walk::turn;
use std::io;
use text::args;
use text::input::fill;
use text::say::say;

// What is asked for: lines of words, or words of lines.
#[derive(Clone, Copy)]
pub enum Job {
    Names,
    Words,
}

// What is asked for, if that is known.
fn asked(rt: HostRuntime) -> Option<Job> {
    let mut word = [0u8; 8];
    let n = args::whole(rt, 1, &mut word);
    match &word[..n] {
        b"names" => Some(Job::Names),
        b"words" => Some(Job::Words),
        _ => None,
    }
}

// Standard input, looked through for a fault first, so that nothing is written where there is one.
fn run(rt: HostRuntime, job: Job, room: &mut [u8; 65536]) -> Result<(), Fault<'_>> {
    let n = fill(&mut rt.stdin(), room).map_err(|_| Fault::Unread)?;
    if n > 65535 {
        return Err(Fault::Long);
    }
    let text = &room[..n];
    turn(job, text, &mut io::sink())?;
    turn(job, text, &mut rt.stdout())
}

// Of the file's name no more is shown than fits.
#[inline(never)]
fn told(rt: HostRuntime, job: Job, fault: Fault<'_>) {
    let mut file = [0u8; 4096];
    let n = args::beginning(rt, 2, &mut file);
    report::tell(rt.stderr(), job, &file[..n], fault);
}

fn main(rt: HostRuntime) {
    let Some(job) = asked(rt) else {
        say(
            rt.stderr(),
            b"usage: lines names FILE, or lines words FILE\n",
        );
        return;
    };
    let mut room = [0u8; 65536];
    if let Err(fault) = run(rt, job, &mut room) {
        told(rt, job, fault);
    }
}
