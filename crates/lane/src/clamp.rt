// A component kept between two bounds, and the lesser of two magnitudes.
ghost use Rattle.std.specs.Prelude.{◌≡◌, if◌then◌else◌, unsigned_abs};
ghost use Rattle.signed.specs.Signed.{sext};
ghost use Rattle.lane.specs.Lane.{clip_lane, min_abs_lane};

use crate::select::either;

// Signed bytes stand in the order of the unsigned ones that differ from them in bit 7.
pub fn nearest(x: u8, y: u8, z: u8) -> u8
    ensures { result ≡ (clip_lane x y z).byte }
{
    let p = x ^ 128;
    let q = y ^ 128;
    let r = z ^ 128;
    let lo = either(q < r, q, r);
    let hi = either(q < r, r, q);
    let t = either(p < lo, lo, p);
    either(hi < t, hi, t) ^ 128
}

// The sign flag: set unless source 1 lies strictly between sources 2 and 3, in this order.
pub fn sign(x: u8, y: u8, z: u8) -> u8
    ensures { result ≡ (if (clip_lane x y z).sign then 255 else 0) }
{
    let p = x ^ 128;
    either(((y ^ 128) < p) & (p < (z ^ 128)), 0, 255)
}

fn size(x: u8) -> u8
    ensures { result ≡ unsigned_abs (sext x 7) }
{
    x.cast_signed().unsigned_abs()
}

pub fn lesser(x: u8, y: u8) -> u8
    ensures { result ≡ (min_abs_lane x y).byte }
{
    size(x).min(size(y)).min(127)
}
