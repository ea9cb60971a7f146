// The program pipe: runs a list of triples that comes as bytes through standard input, and says how it ended. docs/PARTS.md says what is read and written.
#![tactic(auto)]

mod asked;
mod feed;
mod tell;

use crate::tell::Wrong;
use shown::total;
use text::say;

// Runs what standard input brings under the budget that is given, on a machine of zeros, and answers the status.
fn run(rt: HostRuntime, behind: bool) -> Result<u32, Wrong> {
    let first = parts::begin(asked::budget(rt, behind)?);
    let fed = feed::all(rt.stdin(), first).map_err(|_| Wrong::Unreadable)?;
    let run = parts::end(fed);
    total::lines(rt.stdout(), run.end, run.steps, run.counts);
    Ok(total::status(run.end))
}

fn main(rt: HostRuntime) {
    let tell = asked::tell(rt);
    let status = run(rt, tell).unwrap_or_else(|wrong| {
        tell::tell(rt, wrong);
        Wrong::STATUS
    });
    if tell {
        say::status(rt, status);
    }
}
