// The two units as one, on the six lent pieces: one triple, from its word to what it leaves.
#![tactic(auto)]

ghost use Rattle.std.specs.Prelude.{◌≡◌};
ghost use Rattle.pieces.specs.State.{state};
ghost use Rattle.units.specs.Inner.Answers.{answered, answered_of};

use terms::{Counted, Refusal};
use words::Insn;

// One triple, on pieces of right lengths. This is the only call of `decode` in the library, so that the compiler makes one decision of the two.
pub fn triple(
    word: u32,
    side: u32,
    mask: u32,
    ds: &mut [u8; 8192],
    a: &mut [u32; 32],
    r: &mut [u32; 32],
    c: &mut [u32; 4],
    vc: &mut [u32; 4],
    v: &mut [u8; 512],
) -> Result<Counted, Refusal>
    ensures { answered result (state ds.new a.new r.new c.new vc.new v.new)
        ≡ answered_of word side mask (state ds.old a.old r.old c.old vc.old v.old) }
{
    let d = words::decode(word, side, mask);
    let Ok(i) = d else {
        return d.map(|_| Counted::Nothing);
    };
    match i {
        Insn::VminS(w) => Ok(vector::vmin_s(w, vc, v)),
        Insn::VmaxS(w) => Ok(vector::vmax_s(w, vc, v)),
        Insn::VabsS(w) => Ok(vector::vabs_s(w, vc, v)),
        Insn::VnegS(w) => Ok(vector::vneg_s(w, vc, v)),
        Insn::VaddS(w) => Ok(vector::vadd_s(w, vc, v)),
        Insn::VsubS(w) => Ok(vector::vsub_s(w, vc, v)),
        Insn::Vsar(w) => Ok(vector::vsar(w, vc, v)),
        Insn::Vcmpad(w, mask) => Ok(vector::vcmpad(w, mask, vc, v)),
        Insn::Vbitop(w) => Ok(vector::vbitop(w, vc, v)),
        Insn::VminU(w) => Ok(vector::vmin_u(w, vc, v)),
        Insn::VmaxU(w) => Ok(vector::vmax_u(w, vc, v)),
        Insn::VabsU(w) => Ok(vector::vabs_u(w, vc, v)),
        Insn::Vswz(w) => Ok(vector::vswz(w, v)),
        Insn::VaddU(w) => Ok(vector::vadd_u(w, vc, v)),
        Insn::VsubU(w) => Ok(vector::vsub_u(w, vc, v)),
        Insn::Vshr(w) => Ok(vector::vshr(w, vc, v)),
        Insn::Vadd9(w) => Ok(vector::vadd9(w, vc, v)),
        Insn::Vclip(w) => Ok(vector::vclip(w, vc, v)),
        Insn::Vminabs(w) => Ok(vector::vminabs(w, vc, v)),
        Insn::Vand(w) => Ok(vector::vand(w, vc, v)),
        Insn::Vxor(w) => Ok(vector::vxor(w, vc, v)),
        Insn::Vmov(w) => Ok(vector::vmov(w, vc, v)),
        Insn::Vor(w) => Ok(vector::vor(w, vc, v)),
        Insn::Mov(w) => Ok(vector::mov(w, vc, v)),
        Insn::MovVc(w) => Ok(vector::mov_vc(w, vc, v)),
        Insn::Nop => Ok(Counted::Nothing),
        Insn::Ldavh(o) => Ok(address::ldavh(o, ds, a, c, v)),
        Insn::Ldavv(o) => Ok(address::ldavv(o, ds, a, c, v)),
        Insn::Ldas(o) => Ok(address::ldas(o, ds, a, c, r)),
        Insn::Stavh(o) => Ok(address::stavh(o, ds, a, c, v)),
        Insn::Stavv(o) => Ok(address::stavv(o, ds, a, c, v)),
        Insn::Stas(o) => Ok(address::stas(o, ds, a, c, r)),
        Insn::Aadd(w, index) => Ok(address::aadd(w, index, a, c)),
        Insn::Add(w, index) => Ok(address::add(w, index, a, c)),
        Insn::Setlo(w) => Ok(address::setlo(w, a)),
        Insn::Sethi(w) => Ok(address::sethi(w, a)),
        Insn::Bitop(w) => Ok(address::bitop(w, a, c)),
        Insn::Ldvh(w) => Ok(address::ldvh(w, ds, a, c, v)),
        Insn::Ldvv(w) => Ok(address::ldvv(w, ds, a, c, v)),
        Insn::Lds(w) => Ok(address::lds(w, ds, a, c, r)),
        Insn::Stvh(w) => Ok(address::stvh(w, ds, a, c, v)),
        Insn::Stvv(w) => Ok(address::stvv(w, ds, a, c, v)),
        Insn::Sts(w) => Ok(address::sts(w, ds, a, c, r)),
    }
}
