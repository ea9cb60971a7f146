// Shifts of sixteen components, arithmetic and logical.
ghost use Rattle.std.specs.Prelude.{◌≡◌, Bool, true, false, if◌then◌else◌};
ghost use Rattle.lane.specs.Lane.{shift_lane};
ghost use Rattle.lanes.specs.Inner.Unpacked.{shift_unpacked};
ghost use Rattle.loops.specs.Inner.Gives.{Gives};

use crate::each::each;
use lane::shifts;
use lane::shifts::Shifted;
use lanes::Unpacked;

// Over the shift of one component, arithmetic or logical: a flag for the sign would be asked in each.
fn shift<F: Fn(u8, u8) -> Shifted>(cut: F, a: [u8; 16], b: [u8; 16]) -> Unpacked
    requires { F.IsAlwaysCallable cut }
    ensures { (signed : Bool)
        → Gives F.Fn cut (λ x y. record { byte = (shift_lane signed x y).byte; whole = (if (shift_lane signed x y).zero then 0 else 1) })
        → result ≡ shift_unpacked signed a b }
{
    let bytes = each(|x, y| cut(x, y).byte, a, b);
    let tested = each(|x, y| cut(x, y).whole, a, b);
    Unpacked {
        bytes,
        tested,
        tops: bytes,
        clipped: 0,
    }
}

pub fn vsar(a: [u8; 16], b: [u8; 16]) -> Unpacked
    ensures { result ≡ shift_unpacked true a b }
{
    shift(|x, y| shifts::cut(true, x, y), a, b)
}

pub fn vshr(a: [u8; 16], b: [u8; 16]) -> Unpacked
    ensures { result ≡ shift_unpacked false a b }
{
    shift(|x, y| shifts::cut(false, x, y), a, b)
}
