// Sixteen distances compared with sixteen bytes: flags alone.
ghost use Rattle.std.specs.Prelude.{◌≡◌};
ghost use Rattle.lanes.specs.Lanes.{cmpad_flags};

use crate::each::each;
use lane::compare;
use lane::select::either;
use lanes::{Flags, packed};

// One bit operation on the packed flags is that of all sixteen components.
pub fn vcmpad(op: u8, input: u16, a: [u8; 16], other: [u8; 16], b: [u8; 16]) -> Flags
    ensures { result ≡ cmpad_flags op input a other b }
{
    let d = each(compare::apart, b, a);
    // 0 where the two are equal.
    let differ = each(|x, y| x ^ y, d, other);
    let less = each(|x, y| either(x < y, 255, 0), d, other);
    let w = packed::flags(differ, less);
    let signs = bits::bitop32(op, u32::from(input), w % 65536) % 65536;
    Flags {
        signs: signs as u16,
        zeros: (w / 65536) as u16,
    }
}
