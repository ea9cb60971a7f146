// Which places an instruction touches, and whether two instructions may be swapped. docs/PLACES.md numbers the places.
#![tactic(auto)]

ghost use Rattle.std.specs.Prelude.{◌≡◌, ◌≤◌, ◌-◌, length};
ghost use Rattle.std.proofs.lemmas.List.Edits.{sets};
ghost use Rattle.pieces.specs.State.{pieces};
ghost use Rattle.model.specs.Swap.{swap_of, places_outcome, places_of};
ghost use Rattle.footprint.specs.Inner.Numbers.{held};
ghost use Rattle.swap.specs.Answers.{swap_answer, list_answer};

use footprint::{Numbers, Touches};
use terms::End;

mod search; // search.rt: the first place of one list that is in another

// A clash: the place, and which of the two writes it.
#[derive(Clone, Copy)]
pub struct Clash {
    pub place: u32,
    pub writer: u32,
}

// The answer of `may_swap`, and the clash if there is one: none where it is refused. (No Result: C is told of both whatever the answer is.)
#[derive(Clone, Copy)]
pub struct Swap {
    pub end: End,
    pub clash: Option<Clash>,
}

// The answer of `places`: how many are read, and how many written, 0 where it is refused.
#[derive(Clone, Copy)]
pub struct Listed {
    pub end: End,
    pub reads: u32,
    pub writes: u32,
}

fn unswapped(end: End) -> Swap
    ensures { result ≡ record { end = end; clash = None } }
{
    Swap { end, clash: None }
}

fn unlisted(end: End) -> Listed
    ensures { result ≡ record { end = end; reads = 0; writes = 0 } }
{
    Listed {
        end,
        reads: 0,
        writes: 0,
    }
}

pub fn may_swap(
    word1: u32,
    side1: u32,
    mask1: u32,
    word2: u32,
    side2: u32,
    mask2: u32,
    ds: &[u8],
    a: &[u32],
    r: &[u32],
    c: &[u32],
    vc: &[u32],
    v: &[u8],
) -> Swap
    ensures { swap_answer result
        ≡ swap_of word1 side1 mask1 word2 side2 mask2 (pieces ds.entry a.entry r.entry c.entry vc.entry v.entry) }
{
    if !pieces::sized(ds.len(), a.len(), r.len(), c.len(), vc.len(), v.len()) {
        return unswapped(End::Lengths);
    }
    // Here it has thirty-two words; as an array its type says so.
    let Some(a) = a.as_array() else {
        return unswapped(End::Lengths);
    };
    let i = match words::decode(word1, side1, mask1) {
        Ok(i) => i,
        Err(k) => return unswapped(End::Refused(k)),
    };
    let j = match words::decode(word2, side2, mask2) {
        Ok(j) => j,
        Err(k) => return unswapped(End::Refused(k)),
    };
    Swap {
        end: End::Done,
        clash: search::clash(footprint::footprint(i, a), footprint::footprint(j, a)),
    }
}

// The numbers at the start of the buffer.
fn fill(buffer: &mut [u32], l: Numbers)
    requires { (22 ≤ length buffer.old) × (l.count ≤ 22) }
    ensures { buffer.new ≡ sets buffer.old 0 (held l) }
{
    buffer[..l.count].copy_from_slice(l.held());
}

// The answer where all is listed.
fn report(f: Touches, buffer: &mut [u32]) -> Listed
    requires { (22 ≤ length buffer.old) × (f.list.count ≤ 22) × (f.reads ≤ f.list.count) }
    ensures { list_answer result buffer.new
        ≡ places_outcome 0 f.reads (f.list.count - f.reads) (sets buffer.old 0 (held f.list)) }
{
    let l = f.list;
    fill(buffer, l);
    Listed {
        end: End::Done,
        reads: f.reads as u32,
        writes: (l.count - f.reads) as u32,
    }
}

pub fn places(
    word: u32,
    side: u32,
    mask: u32,
    ds: &[u8],
    a: &[u32],
    r: &[u32],
    c: &[u32],
    vc: &[u32],
    v: &[u8],
    buffer: &mut [u32],
) -> Listed
    ensures { list_answer result buffer.new
        ≡ places_of word side mask (pieces ds.entry a.entry r.entry c.entry vc.entry v.entry) buffer.old }
{
    if !pieces::sized(ds.len(), a.len(), r.len(), c.len(), vc.len(), v.len()) {
        return unlisted(End::Lengths);
    }
    // Here it has thirty-two words; as an array its type says so.
    let Some(a) = a.as_array() else {
        return unlisted(End::Lengths);
    };
    if buffer.len() < 22 {
        return unlisted(End::Lengths);
    }
    match words::decode(word, side, mask) {
        Ok(i) => report(footprint::footprint(i, a), buffer),
        Err(k) => unlisted(End::Refused(k)),
    }
}
