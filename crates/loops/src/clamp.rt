// Components kept between two bounds, and the lesser of two magnitudes.
ghost use Rattle.std.specs.Prelude.{◌≡◌};
ghost use Rattle.lanes.specs.Inner.Unpacked.{clip_unpacked, min_abs_unpacked};

use crate::each::each;
use lane::clamp;
use lanes::{Unpacked, moves};
use std::array;

pub fn vclip(a: [u8; 16], b: [u8; 16], c: [u8; 16]) -> Unpacked
    ensures { result ≡ clip_unpacked a b c }
{
    let bytes = array::from_fn(|i| clamp::nearest(a[i], b[i], c[i]));
    let tops = array::from_fn(|i| clamp::sign(a[i], b[i], c[i]));
    Unpacked {
        bytes,
        tested: bytes,
        tops,
        clipped: 0,
    }
}

pub fn vminabs(a: [u8; 16], b: [u8; 16]) -> Unpacked
    ensures { result ≡ min_abs_unpacked a b }
{
    moves::mov(each(clamp::lesser, a, b))
}
