// A run of a list that arrives in parts, as bytes: begun, fed, ended. Document 02, wish 3. Its state goes from call to call by value.
#![tactic(auto)]

mod bytes; // bytes.rt: words out of bytes, and the twelve bytes of a triple
mod stream; // stream.rt: whole triples, a buffer at a time
pub mod sixteen; // sixteen.rt: the state as sixteen words, for C

ghost use Rattle.std.specs.Prelude.{◌≡◌, cond, ◌<◌, eqb};
ghost use Rattle.pieces.specs.State.{state, Sized};
ghost use Rattle.model.specs.Parts.{begun, fed, part_of, end_of};
ghost use Rattle.parts.specs.Run.{answer_of, sound, meant_by, struct_of, given, handed};
ghost use Rattle.parts.specs.Inner.Feed.{Open, open_of, going_by, kept_by, closing};

use machine::Ran;
use terms::{Counts, End};

// A run in parts between two calls: how many steps it may do; whether it is over, and the answer that is given, Done while all is well; the
// steps done and what they counted; the unfinished bytes, which are the first `count` of `held`.
#[derive(Clone, Copy)]
pub struct Run {
    pub budget: u32,
    pub over: bool,
    pub end: End,
    pub steps: u32,
    pub counts: Counts,
    pub count: u32,
    pub held: [u8; 12],
}

// A run that is not over, with its unfinished bytes.
fn going(budget: u32, steps: u32, counts: Counts, count: usize, held: [u8; 12]) -> Run
    requires { count < 12 }
    ensures { result ≡ going_by budget steps counts count held }
{
    let count = count as u32;
    Run {
        budget,
        over: false,
        end: End::Done,
        steps,
        counts,
        count,
        held,
    }
}

// A new run.
pub fn begin(budget: u32) -> Run
    ensures { result ≡ struct_of (begun budget) }
{
    let counts = Counts::default();
    let held = [0u8; 12];
    going(budget, 0, counts, 0, held)
}

// The number of the answer that is given.
fn answer(x: Run) -> u32
    ensures { result ≡ answer_of x }
{
    let end = x.end;
    if x.over {
        return u32::from(end);
    }
    0
}

// Whether it is within the bounds of every run.
fn sound(x: Run) -> bool
    ensures { result ≡ sound x }
{
    let counts = x.counts;
    (x.steps <= x.budget) & counts.within(x.steps) & (x.count < 12) & (answer(x) <= 7)
}

// A run that is over with an answer.
fn kept(x: Run, end: End) -> Run
    ensures { result ≡ kept_by end x }
{
    Run {
        over: true,
        end,
        ..x
    }
}

// The run that a struct stands for, as a call hands it back.
fn read(x: Run) -> Run
    ensures { result ≡ struct_of (meant_by x) }
{
    if !sound(x) {
        return kept(begin(0), End::Lengths);
    }
    let end = x.end;
    let held = x.held;
    let counts = x.counts;
    let count = x.count as usize;
    let tidy = bytes::twelve(held, count, b"");
    let y = going(x.budget, x.steps, counts, count, tidy);
    if x.over {
        return kept(y, end);
    }
    y
}

// The run after whole triples: over where they stopped, else with what is left of the bytes that came last.
fn closing(budget: u32, x: Ran, rest: &[u8]) -> Run
    ensures { result ≡ struct_of (closing budget x rest.now) }
{
    let end = x.end;
    let counts = x.counts;
    let none = [0u8; 12];
    if stream::stopped(x) {
        return kept(going(budget, x.steps, counts, 0, none), end);
    }
    let tail = rest.len() % 12;
    let held = bytes::twelve(none, 0, &rest[rest.len() - tail..]);
    going(budget, x.steps, counts, tail, held)
}

// Bytes for a run that is not over: the triple that they make whole, the triples after it, and what is left. (The pieces stay slices here, of lengths that
// `part` has tested: as arrays, made by six tests that may each return, a short part takes some forty instructions more.)
fn feed(
    x: Run,
    bytes: &[u8],
    ds: &mut [u8],
    a: &mut [u32],
    r: &mut [u32],
    c: &mut [u32],
    vc: &mut [u32],
    v: &mut [u8],
) -> Run
    requires { Sized (state ds.old a.old r.old c.old vc.old v.old) × Open x }
    ensures { given result (state ds.new a.new r.new c.new vc.new v.new)
        ≡ handed (fed bytes.now (open_of x) (state ds.old a.old r.old c.old vc.old v.old)) }
{
    let have = x.count as usize;
    let need = 12 - have;
    let held = x.held;
    let counts = x.counts;
    let first = bytes::twelve(held, have, bytes);
    if bytes.len() < need {
        return going(x.budget, x.steps, counts, have + bytes.len(), first);
    }
    let from = Ran {
        end: End::Done,
        steps: x.steps,
        counts,
    };
    let one = stream::one(first, x.budget, from, ds, a, r, c, vc, v);
    let rest = &bytes[need..];
    if rest.len() < 12 {
        return closing(x.budget, one, rest);
    }
    let all = stream::stream(rest, x.budget, one, ds, a, r, c, vc, v);
    closing(x.budget, all, rest)
}

// A part of the list.
pub fn part(
    run: Run,
    bytes: &[u8],
    ds: &mut [u8],
    a: &mut [u32],
    r: &mut [u32],
    c: &mut [u32],
    vc: &mut [u32],
    v: &mut [u8],
) -> Run
    ensures { given result (state ds.new a.new r.new c.new vc.new v.new)
        ≡ handed (part_of bytes.now (meant_by run) (state ds.old a.old r.old c.old vc.old v.old)) }
{
    let x = read(run);
    if x.over {
        return x;
    }
    let sized = pieces::sized(ds.len(), a.len(), r.len(), c.len(), vc.len(), v.len());
    if sized {
        return feed(x, bytes, ds, a, r, c, vc, v);
    }
    kept(x, End::Lengths)
}

// Why a run ends with so many bytes left over.
fn ending(count: u32) -> End
    ensures { result ≡ cond (eqb count 0) End.Done End.Ragged }
{
    if count == 0 { End::Done } else { End::Ragged }
}

// The end of the list.
pub fn end(run: Run) -> Run
    ensures { result ≡ struct_of (end_of (meant_by run)) }
{
    let y = read(run);
    if y.over {
        return y;
    }
    kept(y, ending(y.count))
}
