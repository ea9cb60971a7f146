// Sixteen components picked from the thirty-two of two sources.
ghost use Rattle.std.specs.Prelude.{◌≡◌, map};
ghost use Rattle.lanes.specs.Lanes.{component, source, swizzled};

use std::simd::prelude::*;

// The component and the source that each selector names.
fn named(hi: bool, sel: u8x16) -> (u8x16, u8x16)
    ensures { (result.0 ≡ map (component hi) sel) × (result.1 ≡ map (source hi) sel) }
{
    let high = sel >> u8x16::splat(4);
    if hi {
        (high & u8x16::splat(15), sel & u8x16::splat(1))
    } else {
        (sel & u8x16::splat(15), high & u8x16::splat(1))
    }
}

// Both sources are picked from at every place, each as it was, and then one pick of the two is taken.
pub fn vswz(hi: bool, a: [u8; 16], b: [u8; 16], sel: [u8; 16]) -> [u8; 16]
    ensures { result ≡ swizzled hi a b sel }
{
    let (component, source) = named(hi, u8x16::from_array(sel));
    let from_b = u8x16::from_array(b).swizzle_dyn(component);
    let from_a = u8x16::from_array(a).swizzle_dyn(component);
    source
        .simd_eq(u8x16::splat(0))
        .select(from_a, from_b)
        .to_array()
}
