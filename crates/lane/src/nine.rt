// The sum of a byte and a nine-bit number.
ghost use Rattle.std.specs.Prelude.{◌≡◌, if◌then◌else◌};
ghost use Rattle.lane.specs.Lane.{add9_lane};

use crate::select;

// A saturated sum, and 255 where it was saturated.
#[derive(Clone, Copy)]
pub struct Saturated {
    pub byte: u8,
    pub top: u8,
}

pub fn sum(x: u8, w: u16) -> Saturated
    ensures { result ≡ record { byte = (add9_lane x w).byte; top = (if (add9_lane x w).sign then 255 else 0) } }
{
    let t = x as i32 + signed::sext(w as u32, 8);
    let v = signed::clip(0, 0xff, t);
    let byte = signed::low8(v);
    let top = select::either((t < 0) | (0xff < t), 255, 0);
    Saturated { byte, top }
}
