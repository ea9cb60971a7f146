// The flags of sixteen components, packed into one word, and how many of sixteen are set.
ghost use Rattle.std.specs.Prelude.{◌≡◌, ◌+◌, ◌*◌};
ghost use Rattle.lanes.specs.Inner.Unpacked.{zeros_of, tops_of, tally_of};

use std::simd::prelude::*;

// The zero flags of the bytes `tested` in the high half, and bit 7 of each of `tops` in the low half: a word of $vc. One instruction takes
// the tests of sixteen bytes.
pub fn flags(tested: [u8; 16], tops: [u8; 16]) -> u32
    ensures { result ≡ zeros_of tested * 65536 + tops_of tops }
{
    let zeros = u8x16::from_array(tested)
        .simd_eq(u8x16::splat(0))
        .to_bitmask() as u32;
    let signs = u8x16::from_array(tops)
        .simd_ge(u8x16::splat(128))
        .to_bitmask() as u32;
    zeros << 16 | signs
}

// How many of sixteen bytes are odd.
pub fn tally(t: [u8; 16]) -> u8
    ensures { result ≡ tally_of t }
{
    let low = u8x16::from_array(t) & u8x16::splat(1);
    low.simd_eq(u8x16::splat(1)).to_bitmask().count_ones() as u8
}
