// Bit operations on sixteen components: moves of what they make.
ghost use Rattle.std.specs.Prelude.{◌≡◌};
ghost use Rattle.lane.specs.declared.Logic.TheVariants.{And, Xor, Or};
ghost use Rattle.lanes.specs.Inner.Unpacked.{bitop_unpacked, logic_unpacked};

use crate::each::each;
use lanes::{Unpacked, moves};
use std::array;

pub fn vbitop(op: u8, a: [u8; 16], b: [u8; 16]) -> Unpacked
    ensures { result ≡ bitop_unpacked op a b }
{
    moves::mov(each(|x, y| bits::bitop8(op, x, y), a, b))
}

// With one byte: `a.map(..)` is not turned into vector code.
pub fn vand(a: [u8; 16], byte: u8) -> Unpacked
    ensures { result ≡ logic_unpacked And a byte }
{
    moves::mov(array::from_fn(|i| a[i] & byte))
}

pub fn vxor(a: [u8; 16], byte: u8) -> Unpacked
    ensures { result ≡ logic_unpacked Xor a byte }
{
    moves::mov(array::from_fn(|i| a[i] ^ byte))
}

pub fn vor(a: [u8; 16], byte: u8) -> Unpacked
    ensures { result ≡ logic_unpacked Or a byte }
{
    moves::mov(array::from_fn(|i| a[i] | byte))
}
