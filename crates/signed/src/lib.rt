// Small signed numbers: bytes read as signed ones, clipped, shifted, and cut to bytes again.
#![tactic(auto)]

ghost use Rattle.std.specs.Prelude.{◌≡◌, cond, ◌<◌};
ghost use Rattle.std.specs.Int.Signed.{mag};
ghost use Rattle.signed.specs.Signed.{sext, widen, low, clip, shifted};

// A value in place of an `if` whose arms meet.
fn pick(t: bool, a: i32, b: i32) -> i32
    ensures { result ≡ cond t a b }
{
    if t { a } else { b }
}

// The low k + 1 bits of x, of which bit k is the sign.
pub fn sext(x: u32, k: u32) -> i32
    requires { k < 16 }
    ensures { result ≡ sext x k }
{
    let half = 1u32 << k;
    ((x & (half + half - 1)) ^ half) as i32 - half as i32
}

pub fn widen(signed: bool, x: u8) -> i32
    ensures { result ≡ widen signed x }
{
    if signed {
        sext(u32::from(x), 7)
    } else {
        i32::from(x)
    }
}

// Masked first: `as` asks that the value fits.
pub fn low8(z: i32) -> u8
    ensures { result ≡ low 8 z }
{
    (z & 0xff) as u8
}

pub fn low16(z: i32) -> u16
    ensures { result ≡ low 16 z }
{
    (z & 0xffff) as u16
}

// `clamp` asks that the ends be in order; this answers for any two.
pub fn clip(lo: i32, hi: i32, z: i32) -> i32
    ensures { result ≡ clip lo hi z }
{
    pick(z < lo, lo, pick(hi < z, hi, z))
}

// A negative count shifts left. Both go by one shift to the right of a number that is moved eight bits up, so that no branch is needed.
pub fn shifted(s: i32, n: i32) -> i32
    requires { (mag s < 256) × (mag n < 8) }
    ensures { result ≡ shifted s n }
{
    let left = -n;
    (s * 256) >> (8 - left)
}
