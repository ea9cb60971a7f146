// Sums of sixteen bytes and sixteen nine-bit numbers.
ghost use Rattle.std.specs.Prelude.{◌≡◌};
ghost use Rattle.lanes.specs.Inner.Unpacked.{add9_unpacked};

use crate::select;
use lane::nine;
use lanes::{Unpacked, packed};
use std::array;

pub fn vadd9(a: [u8; 16], b: [u8; 16], c: [u8; 16]) -> Unpacked
    ensures { result ≡ add9_unpacked a b c }
{
    let w = select::words(b, c);
    let bytes = array::from_fn(|i| nine::sum(a[i], w[i]).byte);
    let tops = array::from_fn(|i| nine::sum(a[i], w[i]).top);
    Unpacked {
        bytes,
        tested: bytes,
        tops,
        clipped: packed::tally(tops),
    }
}
