// Which places a triple touches, and whether two triples may be swapped, for C: an answer as document 01's number, the rest through pointers.
// No piece is changed. include/vp1_order.h declares the functions.
#![tactic(auto)]

ghost use Rattle.std.specs.Prelude.{◌≡◌};
ghost use Rattle.pieces.specs.State.{pieces};
ghost use Rattle.model.specs.Swap.{verdict, swap_outcome, swap_of, places_outcome, places_of};

// The places of one triple. Whatever the answer, both counts are written.
#[unsafe(no_mangle)]
pub extern "C" fn vp1_places(
    word: u32,
    side: u32,
    mask: u32,
    ds: &[u8],
    a: &[u32],
    r: &[u32],
    c: &[u32],
    vc: &[u32],
    v: &[u8],
    buffer: &mut [u32],
    reads: &mut u32,
    writes: &mut u32,
) -> u32
    ensures { places_outcome result reads.new writes.new buffer.new
        ≡ places_of word side mask (pieces ds.entry a.entry r.entry c.entry vc.entry v.entry) buffer.old }
{
    let x = swap::places(word, side, mask, ds, a, r, c, vc, v, buffer);
    *reads = x.reads;
    *writes = x.writes;
    let end = x.end;
    u32::from(end)
}

// Two triples in one state. Whatever the answer, the verdict is written.
#[unsafe(no_mangle)]
pub extern "C" fn vp1_may_swap(
    word1: u32,
    side1: u32,
    mask1: u32,
    word2: u32,
    side2: u32,
    mask2: u32,
    ds: &[u8],
    a: &[u32],
    r: &[u32],
    c: &[u32],
    vc: &[u32],
    v: &[u8],
    clash: &mut u32,
    place: &mut u32,
    writer: &mut u32,
) -> u32
    ensures { swap_outcome result (verdict clash.new place.new writer.new)
        ≡ swap_of word1 side1 mask1 word2 side2 mask2 (pieces ds.entry a.entry r.entry c.entry vc.entry v.entry) }
{
    let x = swap::may_swap(word1, side1, mask1, word2, side2, mask2, ds, a, r, c, vc, v);
    let end = x.end;
    let n = u32::from(end);
    let Some(c) = x.clash else {
        *clash = 0;
        *place = 0;
        *writer = 0;
        return n;
    };
    *clash = 1;
    *place = c.place;
    *writer = c.writer;
    n
}
