// The lent pieces: whether all six have the right lengths, and one register, or one register's flags, of a piece.
#![tactic(auto)]

ghost use Rattle.std.specs.Prelude.{◌≡◌, ◌<◌};
ghost use Rattle.pieces.specs.State.{lengths};
ghost use Rattle.pieces.specs.Inner.Regs.{vreg_of, with_vreg, base_of, with_half, plus, with_long, with_end, long_at, end_at, flags_at};

use terms::Half;

// All six lengths are right.
#[tactic(auto, unfolding(crate::specs::State::lengths))]
pub fn sized(ds: usize, a: usize, r: usize, c: usize, vc: usize, v: usize) -> bool
    ensures { result ≡ lengths ds a r c vc v }
{
    ds == 8192 && a == 32 && r == 32 && c == 4 && vc == 4 && v == 512
}

// The fields of an $a word.
#[derive(Clone, Copy)]
pub struct Base {
    pub addr: u16,
    pub limit: u16,
    pub stride: usize,
}

#[tactic(auto, unfolding(crate::specs::Inner::Regs::base_of))]
pub fn base_of(word: u32) -> Base
    ensures { result ≡ base_of word }
{
    Base {
        addr: (word % 65536) as u16,
        limit: (word / 65536 % 16384) as u16,
        stride: (word / 65536 / 16384) as usize,
    }
}

#[tactic(auto, unfolding(crate::specs::Inner::Regs::with_half))]
pub fn with_half(half: Half, x: u16, word: u32) -> u32
    ensures { result ≡ with_half half x word }
{
    match half {
        Half::Low => word / 65536 * 65536 + u32::from(x),
        Half::High => u32::from(x) * 65536 + word % 65536,
    }
}

// An $a word with addr moved on by y: nothing else of the word changes.
#[tactic(auto, unfolding(crate::specs::Inner::Regs::base_of))]
pub fn moved(word: u32, y: u16) -> u32
    ensures { result ≡ with_half Half.Low (plus (base_of word).addr y) word }
{
    let x = ((word % 65536) as u16).wrapping_add(y);
    with_half(Half::Low, x, word)
}

// Bit 8: bit 31 of the result. Bit 9: the result is 0.
#[tactic(auto, unfolding(crate::specs::Inner::Regs::with_long))]
fn with_long(res: u32, word: u32) -> u32
    ensures { result ≡ with_long res word }
{
    if res == 0 {
        word / 1024 * 1024 + 512 + word % 256
    } else {
        word / 1024 * 1024 + res / 2147483648 * 256 + word % 256
    }
}

#[tactic(auto, unfolding(crate::specs::Inner::Regs::long_at))]
pub fn set_long(c: &mut [u32; 4], cdst: usize, res: u32)
    ensures { c.new ≡ long_at cdst res c.old }
{
    if cdst < 4 {
        c[cdst] = with_long(res, c[cdst]);
    }
}

// Bit 10: addr >= limit.
#[tactic(auto, unfolding(crate::specs::Inner::Regs::with_end))]
fn with_end(addr: u16, limit: u16, word: u32) -> u32
    ensures { result ≡ with_end addr limit word }
{
    if limit <= addr {
        word / 2048 * 2048 + 1024 + word % 1024
    } else {
        word / 2048 * 2048 + word % 1024
    }
}

#[tactic(auto, unfolding(crate::specs::Inner::Regs::end_at))]
pub fn set_end(c: &mut [u32; 4], cdst: usize, addr: u16, limit: u16)
    ensures { c.new ≡ end_at cdst addr limit c.old }
{
    if cdst < 4 {
        c[cdst] = with_end(addr, limit, c[cdst]);
    }
}

#[tactic(auto, unfolding(crate::specs::Inner::Regs::flags_at))]
pub fn set_flags(vc: &mut [u32; 4], vcdst: usize, signs: u16, zeros: u16)
    ensures { vc.new ≡ flags_at vcdst signs zeros vc.old }
{
    if vcdst < 4 {
        vc[vcdst] = u32::from(zeros) * 65536 + u32::from(signs);
    }
}

// $v[n], as one value.
#[tactic(auto, using(crate::proofs::Chunks::get_chunk), unfolding(crate::specs::Inner::Regs::vreg_of))]
pub fn vreg(v: &[u8; 512], n: usize) -> [u8; 16]
    requires { n < 32 }
    ensures { result ≡ vreg_of v.now n }
{
    v.as_chunks::<16>().0[n]
}

// Byte by byte, which becomes one move of sixteen: `copy_from_slice` would first ask whether the two parts of memory meet.
pub fn set_vreg(v: &mut [u8; 512], n: usize, x: [u8; 16])
    requires { n < 32 }
    ensures { v.new ≡ with_vreg v.old n x }
{
    for (i, byte) in x.iter().enumerate() {
        v[16 * n + i] = *byte;
    }
}
