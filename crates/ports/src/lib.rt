// What the vector unit's instructions share: where a second source and vcmpad's input bits come from, where a result and its flags go, and what it counts.
#![tactic(auto)]

ghost use Rattle.std.specs.Prelude.{◌≡◌, ◌<◌};
ghost use Rattle.lanes.specs.Inner.Unpacked.{zeros_of, tops_of, packs};
ghost use Rattle.pieces.specs.Inner.Regs.{flags_at};
ghost use Rattle.words.specs.Fields as F;
ghost use Rattle.words.specs.Inner.Meant.{second_by};
ghost use Rattle.ports.specs.Inner.Ports.{vectors, second_of, input_of, lanes_at, result_from};

use lanes::Unpacked;
use terms::Counted;

// Source 2, as one value: BIMM in each component, or the register SRC2.
#[tactic(auto, unfolding(crate::specs::Inner::Ports::second_of))]
pub fn second_of(word: u32, v: &[u8; 512]) -> [u8; 16]
    ensures { result ≡ second_of (second_by word) v.now }
{
    let f = words::cut(word);
    if words::by_byte(word) {
        lanes::moves::splat(f.byte)
    } else {
        pieces::vreg(v, f.src2)
    }
}

// The sixteen bits that vcmpad joins with its comparison: the side mask, where bit 16 says that it is valid, or the sign flags.
#[tactic(auto, unfolding(crate::specs::Inner::Ports::input_of))]
pub fn input_of(vcdst: usize, mask: u32, vc: &[u32; 4]) -> u16
    ensures { result ≡ input_of vcdst (F.input_of mask) vc.now }
{
    if mask < 65536 {
        (vc[vcdst % 4] % 65536) as u16
    } else {
        (mask % 65536) as u16
    }
}

// Flags to $vc[VCDST]; where there is no such register they are not packed at all.
#[tactic(auto, using(lanes::proofs::Packing::tops_lt), unfolding(pieces::specs::Inner::Regs::flags_at))]
fn pack(tested: [u8; 16], tops: [u8; 16], vcdst: usize, vc: &mut [u32; 4])
    ensures { vc.new ≡ flags_at vcdst (tops_of tops) (zeros_of tested) vc.old }
{
    if vcdst < 4 {
        vc[vcdst] = lanes::packed::flags(tested, tops);
    }
}

// A result to $v[DST], its flags to $vc[VCDST].
#[tactic(auto, unfolding(crate::specs::Inner::Ports::lanes_at, lanes::specs::Inner::Unpacked::packs))]
fn write(m: Unpacked, dst: usize, vcdst: usize, vc: &mut [u32; 4], v: &mut [u8; 512])
    requires { dst < 32 }
    ensures { vectors vc.new v.new ≡ lanes_at dst vcdst (packs m) (vectors vc.old v.old) }
{
    pieces::set_vreg(v, dst, m.bytes);
    pack(m.tested, m.tops, vcdst, vc);
}

// The result of an instruction that counts nothing.
pub fn put(m: Unpacked, dst: usize, vcdst: usize, vc: &mut [u32; 4], v: &mut [u8; 512]) -> Counted
    requires { dst < 32 }
    ensures { result_from result (vectors vc.new v.new) ≡ result_from Counted.Nothing (lanes_at dst vcdst (packs m) (vectors vc.old v.old)) }
{
    write(m, dst, vcdst, vc, v);
    Counted::Nothing
}

// The result of one that counts the components that were clipped.
#[tactic(auto, unfolding(lanes::specs::Inner::Unpacked::packs))]
pub fn put_clipped(
    m: Unpacked,
    dst: usize,
    vcdst: usize,
    vc: &mut [u32; 4],
    v: &mut [u8; 512],
) -> Counted
    requires { dst < 32 }
    ensures { result_from result (vectors vc.new v.new) ≡ result_from (Counted.Clipped (packs m).clipped) (lanes_at dst vcdst (packs m) (vectors vc.old v.old)) }
{
    write(m, dst, vcdst, vc, v);
    Counted::Clipped(u64::from(m.clipped))
}
