// The program desk: runs listings, checks what one leaves, explains an instruction. docs/LISTING.md says what is read and written, byte for byte.
#![tactic(auto)]

// Functions with a room, or a state, are kept out of line: so the stack has it only while it is in use.
mod argument;
mod asked;
mod calls;
mod check;
mod compare;
mod expected;
mod explain;
mod explain_fields;
mod lines;
mod listing;
mod pages;
mod run;
mod source;
mod start;
mod steps;
mod tell;

use crate::asked::Task;
use crate::tell::Told;

// Does what is asked for, and answers the status.
fn done(rt: HostRuntime, task: Option<Task>) -> Result<u32, Told> {
    match task {
        Some(Task::Run(o, first)) => Ok(run::all(rt, o, first)),
        Some(Task::Check(listing, expected)) => check::check(rt, listing, expected),
        Some(Task::Explain(step, base)) => argument::explained(rt, step, base),
        None => Err(tell::usage(rt.stderr())),
    }
}

fn main(rt: HostRuntime) {
    let asked = asked::read(rt);
    let status = done(rt, asked.task).unwrap_or(Told::STATUS);
    if asked.tell {
        text::say::status(rt, status);
    }
}
