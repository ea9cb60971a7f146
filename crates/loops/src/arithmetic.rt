// The arithmetic operations, with their flags not packed yet.
ghost use Rattle.std.specs.Prelude.{◌≡◌, true, false, if◌then◌else◌, replicate};
ghost use Rattle.lane.specs.declared.Calc.{Calc};
ghost use Rattle.lane.specs.declared.Calc.TheVariants.{Min, Max, Abs, Neg, Add, Sub};
ghost use Rattle.lane.specs.Lane.{arith_lane, tells};
ghost use Rattle.lanes.specs.Inner.Unpacked.{arith_unpacked};
ghost use Rattle.loops.specs.Inner.Gives.{Gives};

use crate::each::each;
use lane::scalar;
use lanes::{Unpacked, moves, packed};

// Signed: the sign flag is bit 7 of the clipped byte.
fn signed<F: Fn(u8, u8) -> u8, G: Fn(u8, u8) -> u8>(
    f: F,
    clipped: G,
    a: [u8; 16],
    b: [u8; 16],
) -> Unpacked
    requires f { F.IsAlwaysCallable f }
    requires clipped { G.IsAlwaysCallable clipped }
    ensures { (op : Calc)
        → Gives F.Fn f (λ x y. (arith_lane op true x y).byte)
        → Gives G.Fn clipped (λ x y. if (arith_lane op true x y).clipped then 1 else 0)
        → result ≡ arith_unpacked op true a b }
{
    let bytes = each(f, a, b);
    Unpacked {
        bytes,
        tested: bytes,
        tops: bytes,
        clipped: packed::tally(each(clipped, a, b)),
    }
}

// Unsigned: the sign flag tells that the result was clipped.
fn unsigned<F: Fn(u8, u8) -> u8, G: Fn(u8, u8) -> u8>(
    f: F,
    clipped: G,
    a: [u8; 16],
    b: [u8; 16],
) -> Unpacked
    requires f { F.IsAlwaysCallable f }
    requires clipped { G.IsAlwaysCallable clipped }
    ensures { (op : Calc)
        → tells op ≡ true
        → Gives F.Fn f (λ x y. (arith_lane op false x y).byte)
        → Gives G.Fn clipped (λ x y. if (arith_lane op false x y).sign then 255 else 0)
        → result ≡ arith_unpacked op false a b }
{
    let bytes = each(f, a, b);
    let tops = each(clipped, a, b);
    Unpacked {
        bytes,
        tested: bytes,
        tops,
        clipped: packed::tally(tops),
    }
}

fn never(_x: u8, _y: u8) -> u8
    ensures { result ≡ 0 }
{
    0
}

pub fn vmin_s(a: [u8; 16], b: [u8; 16]) -> Unpacked
    ensures { result ≡ arith_unpacked Min true a b }
{
    signed(scalar::vmin_s, never, a, b)
}

pub fn vmax_s(a: [u8; 16], b: [u8; 16]) -> Unpacked
    ensures { result ≡ arith_unpacked Max true a b }
{
    signed(scalar::vmax_s, never, a, b)
}

pub fn vadd_s(a: [u8; 16], b: [u8; 16]) -> Unpacked
    ensures { result ≡ arith_unpacked Add true a b }
{
    signed(scalar::vadd_s, scalar::vadd_s_clipped, a, b)
}

pub fn vsub_s(a: [u8; 16], b: [u8; 16]) -> Unpacked
    ensures { result ≡ arith_unpacked Sub true a b }
{
    signed(scalar::vsub_s, scalar::vsub_s_clipped, a, b)
}

pub fn vneg_s(a: [u8; 16]) -> Unpacked
    ensures { result ≡ arith_unpacked Neg true a (replicate 16 0) }
{
    signed(
        |x, _| scalar::vneg_s(x),
        |x, _| scalar::least(x),
        a,
        [0; 16],
    )
}

pub fn vabs_s(a: [u8; 16]) -> Unpacked
    ensures { result ≡ arith_unpacked Abs true a (replicate 16 0) }
{
    signed(
        |x, _| scalar::vabs_s(x),
        |x, _| scalar::least(x),
        a,
        [0; 16],
    )
}

// An unsigned minimum, maximum and magnitude are never clipped: moves of what they make.
pub fn vmin_u(a: [u8; 16], b: [u8; 16]) -> Unpacked
    ensures { result ≡ arith_unpacked Min false a b }
{
    moves::mov(each(scalar::vmin_u, a, b))
}

pub fn vmax_u(a: [u8; 16], b: [u8; 16]) -> Unpacked
    ensures { result ≡ arith_unpacked Max false a b }
{
    moves::mov(each(scalar::vmax_u, a, b))
}

pub fn vabs_u(a: [u8; 16]) -> Unpacked
    ensures { result ≡ arith_unpacked Abs false a (replicate 16 0) }
{
    moves::mov(a)
}

pub fn vadd_u(a: [u8; 16], b: [u8; 16]) -> Unpacked
    ensures { result ≡ arith_unpacked Add false a b }
{
    unsigned(scalar::vadd_u, scalar::vadd_u_clipped, a, b)
}

pub fn vsub_u(a: [u8; 16], b: [u8; 16]) -> Unpacked
    ensures { result ≡ arith_unpacked Sub false a b }
{
    unsigned(scalar::vsub_u, scalar::vsub_u_clipped, a, b)
}
