// The machine on the six lent pieces: the list call, and the single call, which is a list of one triple.
#![tactic(auto)]

ghost use Rattle.std.specs.Prelude.{◌≡◌, cond, ◌%◌, ltb, length};
ghost use Rattle.pieces.specs.State.{state};
ghost use Rattle.model.specs.Step.{step_of};
ghost use Rattle.model.specs.Run.{triples, run_from, run_of};
ghost use Rattle.terms.specs.Counts.{none};
ghost use Rattle.machine.specs.Answers.{step_outcome, run_outcome};
ghost use Rattle.machine.specs.Inner.Turns.{covered_by, ran_of};

use terms::{Counts, End};

// What the single call came to.
#[derive(Clone, Copy)]
pub struct Stepped {
    pub end: End,
    pub counts: Counts,
}

// What a list call came to.
#[derive(Clone, Copy)]
pub struct Ran {
    pub end: End,
    pub steps: u32,
    pub counts: Counts,
}

pub fn report(end: End, steps: u32, counts: Counts) -> Ran
    ensures { result ≡ ran_of end steps counts }
{
    Ran { end, steps, counts }
}

// How many of a list's words the budget covers: three for each step.
pub fn covered(count: usize, budget: u32) -> usize
    ensures { result ≡ covered_by count budget }
{
    let all = count / 3;
    let most = budget as usize;
    if all < most { 3 * all } else { 3 * most }
}

// Why a run came to its end that did n of a list's triples.
pub fn ending(n: usize, count: usize) -> End
    ensures { result ≡ cond (ltb n count) End.Spent End.Done }
{
    if n < count { End::Spent } else { End::Done }
}

// The loop over the triples, on pieces of right lengths. It stands in a function of its own: in one that also returns early its calls count as cold.
fn turns(
    words: &[u32],
    budget: u32,
    ds: &mut [u8; 8192],
    a: &mut [u32; 32],
    r: &mut [u32; 32],
    c: &mut [u32; 4],
    vc: &mut [u32; 4],
    v: &mut [u8; 512],
) -> Ran
    requires { length words.now % 3 ≡ 0 }
    ensures { run_outcome result (state ds.new a.new r.new c.new vc.new v.new)
        ≡ run_from budget (triples words.now) 0 none (state ds.old a.old r.old c.old vc.old v.old) }
{
    let all = words.as_chunks::<3>().0;
    let most = covered(words.len(), budget) / 3;
    let mut counts = Counts::default();
    let mut steps = 0;
    for triple in &all[..most] {
        let x = units::triple(triple[0], triple[1], triple[2], ds, a, r, c, vc, v);
        let Ok(n) = x else {
            return report(terms::end_of(x), steps, counts);
        };
        counts = counts.more(n);
        steps += 1;
    }
    report(ending(most, all.len()), steps, counts)
}

// Why a list is not begun: the lengths are looked at before the number of words.
pub fn unfit(sized: bool) -> End
    ensures { result ≡ cond sized End.Ragged End.Lengths }
{
    if sized { End::Ragged } else { End::Lengths }
}

// The list call: the lengths and the number of words are tested once.
pub fn run(
    words: &[u32],
    budget: u32,
    ds: &mut [u8],
    a: &mut [u32],
    r: &mut [u32],
    c: &mut [u32],
    vc: &mut [u32],
    v: &mut [u8],
) -> Ran
    ensures { run_outcome result (state ds.new a.new r.new c.new vc.new v.new)
        ≡ run_of budget words.now (state ds.old a.old r.old c.old vc.old v.old) }
{
    let refused = report(unfit(false), 0, Counts::default());
    let Some(ds) = ds.as_mut_array() else {
        return refused;
    };
    let Some(a) = a.as_mut_array() else {
        return refused;
    };
    let Some(r) = r.as_mut_array() else {
        return refused;
    };
    let Some(c) = c.as_mut_array() else {
        return refused;
    };
    let Some(vc) = vc.as_mut_array() else {
        return refused;
    };
    let Some(v) = v.as_mut_array() else {
        return refused;
    };
    if words.len() % 3 != 0 {
        return report(unfit(true), 0, Counts::default());
    }
    turns(words, budget, ds, a, r, c, vc, v)
}

// The single call: a list of one triple, so that the code for all instructions stands in one loop.
pub fn step(
    word: u32,
    side: u32,
    mask: u32,
    ds: &mut [u8],
    a: &mut [u32],
    r: &mut [u32],
    c: &mut [u32],
    vc: &mut [u32],
    v: &mut [u8],
) -> Stepped
    ensures { step_outcome result (state ds.new a.new r.new c.new vc.new v.new)
        ≡ step_of word side mask (state ds.old a.old r.old c.old vc.old v.old) }
{
    let words = [word, side, mask];
    let x = run(&words, 1, ds, a, r, c, vc, v);
    let end = x.end;
    let counts = x.counts;
    Stepped { end, counts }
}
