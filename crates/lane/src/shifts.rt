// One shift, arithmetic or logical.
ghost use Rattle.std.specs.Prelude.{◌≡◌, if◌then◌else◌};
ghost use Rattle.lane.specs.Lane.{shift_lane};

use crate::select::either;

// A shifted component: its low eight bits, and 0 where no bit was set before it was cut to them.
#[derive(Clone, Copy)]
pub struct Shifted {
    pub byte: u8,
    pub whole: u8,
}

pub fn cut(signed: bool, x: u8, y: u8) -> Shifted
    ensures { result ≡ record { byte = (shift_lane signed x y).byte; whole = (if (shift_lane signed x y).zero then 0 else 1) } }
{
    let s = signed::widen(signed, x);
    let n = signed::sext(y as u32, 3);
    let r = signed::shifted(s, n);
    let byte = signed::low8(r);
    let whole = either(r == 0, 0, 1);
    Shifted { byte, whole }
}
