// The machine for C: an answer as document 01's number, the counts through pointers. include/vp1.h declares the functions.
#![tactic(auto)]

ghost use Rattle.std.specs.Prelude.{◌≡◌};
ghost use Rattle.pieces.specs.State.{state};
ghost use Rattle.model.specs.Step.{outcome, step_of};
ghost use Rattle.model.specs.Run.{ended, run_of};
ghost use Rattle.terms.specs.Counts.{counts, none};
ghost use Rattle.parts.specs.Words.{told, part_told, begin_call, part_call, end_call};

use terms::End;

// One triple. Whatever the answer, what it counts is written.
#[unsafe(no_mangle)]
pub extern "C" fn vp1_step(
    word: u32,
    side: u32,
    mask: u32,
    ds: &mut [u8],
    a: &mut [u32],
    r: &mut [u32],
    c: &mut [u32],
    vc: &mut [u32],
    v: &mut [u8],
    accesses: &mut u64,
    clipped: &mut u64,
) -> u32
    ensures { outcome result (counts accesses.new clipped.new) (state ds.new a.new r.new c.new vc.new v.new)
        ≡ step_of word side mask (state ds.old a.old r.old c.old vc.old v.old) }
{
    let x = machine::step(word, side, mask, ds, a, r, c, vc, v);
    *accesses = x.counts.accesses;
    *clipped = x.counts.clipped;
    let end = x.end;
    u32::from(end)
}

// A list of triples. Whatever the answer, the steps and what they count are written.
#[unsafe(no_mangle)]
pub extern "C" fn vp1_run(
    words: &[u32],
    budget: u32,
    ds: &mut [u8],
    a: &mut [u32],
    r: &mut [u32],
    c: &mut [u32],
    vc: &mut [u32],
    v: &mut [u8],
    steps: &mut u32,
    accesses: &mut u64,
    clipped: &mut u64,
) -> u32
    ensures { ended result steps.new (counts accesses.new clipped.new) (state ds.new a.new r.new c.new vc.new v.new)
        ≡ run_of budget words.now (state ds.old a.old r.old c.old vc.old v.old) }
{
    let x = machine::run(words, budget, ds, a, r, c, vc, v);
    *steps = x.steps;
    *accesses = x.counts.accesses;
    *clipped = x.counts.clipped;
    let end = x.end;
    u32::from(end)
}

// Begins a run of a list that arrives in parts. `run` is what is kept of it between the calls.
#[unsafe(no_mangle)]
pub extern "C" fn vp1_begin(budget: u32, run: &mut [u32]) -> u32
    ensures { told result 0 none run.new ≡ begin_call budget run.old }
{
    let Some(kept) = run.as_mut_array() else {
        return u32::from(End::Lengths);
    };
    parts::sixteen::store(parts::begin(budget), kept);
    u32::from(End::Done)
}

// A part of the list. Whatever the answer, the steps of the whole run so far and what they count are written.
#[unsafe(no_mangle)]
pub extern "C" fn vp1_part(
    bytes: &[u8],
    ds: &mut [u8],
    a: &mut [u32],
    r: &mut [u32],
    c: &mut [u32],
    vc: &mut [u32],
    v: &mut [u8],
    run: &mut [u32],
    steps: &mut u32,
    accesses: &mut u64,
    clipped: &mut u64,
) -> u32
    ensures { part_told (told result steps.new (counts accesses.new clipped.new) run.new)
        (state ds.new a.new r.new c.new vc.new v.new)
        ≡ part_call bytes.now run.old (state ds.old a.old r.old c.old vc.old v.old) }
{
    let Some(kept) = run.as_mut_array() else {
        *steps = 0;
        *accesses = 0;
        *clipped = 0;
        return u32::from(End::Lengths);
    };
    let fed = parts::part(parts::sixteen::load(kept), bytes, ds, a, r, c, vc, v);
    parts::sixteen::store(fed, kept);
    *steps = fed.steps;
    *accesses = fed.counts.accesses;
    *clipped = fed.counts.clipped;
    let end = fed.end;
    u32::from(end)
}

// The end of the list, for which no piece is lent.
#[unsafe(no_mangle)]
pub extern "C" fn vp1_end(
    run: &mut [u32],
    steps: &mut u32,
    accesses: &mut u64,
    clipped: &mut u64,
) -> u32
    ensures { told result steps.new (counts accesses.new clipped.new) run.new ≡ end_call run.old }
{
    let Some(kept) = run.as_mut_array() else {
        *steps = 0;
        *accesses = 0;
        *clipped = 0;
        return u32::from(End::Lengths);
    };
    let ended = parts::end(parts::sixteen::load(kept));
    parts::sixteen::store(ended, kept);
    *steps = ended.steps;
    *accesses = ended.counts.accesses;
    *clipped = ended.counts.clipped;
    let end = ended.end;
    u32::from(end)
}
