// Moves of sixteen components: a register's, one byte sixteen times, and the bytes of the flags.
ghost use Rattle.std.specs.Prelude.{◌≡◌, [], ◌∷◌, replicate};
ghost use Rattle.lanes.specs.Lanes.{flag_bytes};
ghost use Rattle.lanes.specs.Inner.Unpacked.{mov_unpacked, mov_imm_unpacked};

use crate::Unpacked;
use std::array;

// The sign flags are cleared, the zero flags test the bytes.
pub fn mov(a: [u8; 16]) -> Unpacked
    ensures { result ≡ mov_unpacked a }
{
    let tops = [0u8; 16];
    Unpacked {
        bytes: a,
        tested: a,
        tops,
        clipped: 0,
    }
}

// The sign flag is bit 7 of the value.
pub fn vmov(byte: u8) -> Unpacked
    ensures { result ≡ mov_imm_unpacked byte }
{
    let bytes = [byte; 16];
    Unpacked {
        bytes,
        tested: bytes,
        tops: bytes,
        clipped: 0,
    }
}

// mov from $vc.
pub fn mov_vc(w0: u32, w1: u32, w2: u32, w3: u32) -> [u8; 16]
    ensures { result ≡ flag_bytes (w0 ∷ w1 ∷ w2 ∷ w3 ∷ []) }
{
    let words = [w0, w1, w2, w3];
    array::from_fn(|i| words[i / 4].to_le_bytes()[i % 4])
}

pub fn splat(x: u8) -> [u8; 16]
    ensures { result ≡ replicate 16 x }
{
    [x; 16]
}
