// Whole triples as bytes, one after the other: a buffer of words at a time, so that the machine's own loop does the steps.
ghost use Rattle.std.specs.Prelude.{◌≡◌, true, not, ◌+◌, ◌<◌, ◌≤◌, eqb};
ghost use Rattle.pieces.specs.State.{state, Sized};
ghost use Rattle.terms.specs.Answers.{number};
ghost use Rattle.terms.specs.Counts.{plus, Within};
ghost use Rattle.terms.specs.Inner.Runs.{most};
ghost use Rattle.machine.specs.Answers.{run_outcome};
ghost use Rattle.machine.specs.Inner.Turns.{ran_of};
ghost use Rattle.model.specs.Run.{triples};
ghost use Rattle.model.specs.Parts.{words_of};
ghost use Rattle.model.proofs.Lists.{onward};
ghost use Rattle.parts.specs.Inner.Feed.{room_of};

use crate::bytes::{fill, triple};
use machine::Ran;

// Whether a run has stopped.
pub fn stopped(x: Ran) -> bool
    ensures { result ≡ not (eqb (number x.end) 0) }
{
    let end = x.end;
    u32::from(end) != 0
}

// What was done before, and what a run did that went on from there.
fn added(x: Ran, y: Ran) -> Ran
    requires { (x.steps + y.steps < most) × Within most (plus x.counts y.counts) }
    ensures { result ≡ ran_of y.end (x.steps + y.steps) (plus x.counts y.counts) }
{
    let end = y.end;
    let before = x.counts;
    let now = y.counts;
    Ran {
        end,
        steps: x.steps + y.steps,
        counts: before + now,
    }
}

// One triple, from where a run stands that has not stopped. It takes no buffer: a part may be no more than that.
pub fn one(
    bytes: [u8; 12],
    budget: u32,
    from: Ran,
    ds: &mut [u8],
    a: &mut [u32],
    r: &mut [u32],
    c: &mut [u32],
    vc: &mut [u32],
    v: &mut [u8],
) -> Ran
    requires { Sized (state ds.old a.old r.old c.old vc.old v.old) × (from.steps ≤ budget) × Within from.steps from.counts × (eqb (number from.end) 0 ≡ true) }
    ensures { run_outcome result (state ds.new a.new r.new c.new vc.new v.new)
        ≡ onward budget (triples (words_of bytes)) (run_outcome from (state ds.old a.old r.old c.old vc.old v.old)) }
{
    let words = triple(bytes);
    let x = machine::run(&words, budget - from.steps, ds, a, r, c, vc, v);
    added(from, x)
}

// How many words the buffer takes next, of so many bytes that are whole triples: it holds 480 words, which are 160 triples and 1,920 bytes.
fn room(count: usize) -> usize
    ensures { result ≡ room_of count }
{
    if count < 1920 { count / 4 } else { 480 }
}

// The whole triples of the bytes, from where a run stands, if it has not stopped.
pub fn stream(
    bytes: &[u8],
    budget: u32,
    from: Ran,
    ds: &mut [u8],
    a: &mut [u32],
    r: &mut [u32],
    c: &mut [u32],
    vc: &mut [u32],
    v: &mut [u8],
) -> Ran
    requires { Sized (state ds.old a.old r.old c.old vc.old v.old) × (from.steps ≤ budget) × Within from.steps from.counts }
    ensures { run_outcome result (state ds.new a.new r.new c.new vc.new v.new)
        ≡ onward budget (triples (words_of bytes.now)) (run_outcome from (state ds.old a.old r.old c.old vc.old v.old)) }
{
    let whole = bytes.len() / 12 * 12;
    let mut words = [0u32; 480];
    let mut ran = from;
    let mut i: usize = 0;
    while i < whole {
        if stopped(ran) {
            return ran;
        }
        let n = room(whole - i);
        fill(&mut words, bytes, i, n);
        let x = machine::run(&words[..n], budget - ran.steps, ds, a, r, c, vc, v);
        ran = added(ran, x);
        i += 4 * n;
    }
    ran
}
