// What an instruction touches, as a list of place numbers. docs/PLACES.md numbers the places.
#![tactic(auto)]

ghost use Rattle.std.specs.Prelude.{◌≡◌, ◌≤◌};
ghost use Rattle.words.specs.Inner.Bounded.{Bounded};
ghost use Rattle.words.specs.Inner.Meant.{meant};
ghost use Rattle.footprint.specs.Inner.Numbers.{held, lent, footprint_of};

use terms::{Half, Way};
use words::Insn;

mod address; // address.rt: what each kind of the address unit's operands reads and writes
mod list; // list.rt: a list of numbers, and with places of one kind more
mod vector; // vector.rt: what each kind of the vector unit's operands reads and writes

// The numbers of some places: the first `count` of the array are meant.
#[derive(Clone, Copy)]
pub struct Numbers {
    pub numbers: [u32; 22],
    pub count: usize,
}

impl Numbers {
    // Those that are meant.
    pub fn held(&self) -> &[u32]
        requires { self.now.count ≤ 22 }
        ensures { result.now ≡ held self.now }
    {
        &self.numbers[..self.count]
    }
}

// What an instruction touches: the first `reads` of the list are read, the others written.
#[derive(Clone, Copy)]
pub struct Touches {
    pub list: Numbers,
    pub reads: usize,
}

// What an instruction touches, where the registers that it names are there, as a decoded word's are.
#[tactic(auto, unfolding(words::specs::Inner::Meant::meant, words::specs::Inner::Bounded::BoundedA))]
pub fn footprint(i: Insn, a: &[u32; 32]) -> Touches
    requires { Bounded (meant i) }
    ensures { result ≡ footprint_of (meant i) (lent a.now) }
{
    match i {
        Insn::VminS(w) | Insn::VmaxS(w) | Insn::VaddS(w) | Insn::Vsar(w) => vector::by_op(w),
        Insn::VminU(w) | Insn::VmaxU(w) | Insn::VaddU(w) | Insn::VsubU(w) | Insn::Vshr(w) =>
            vector::by_op(w),
        Insn::VabsS(w) | Insn::VnegS(w) | Insn::VabsU(w) | Insn::Mov(w) => vector::flagged(1, w),
        Insn::Vand(w) | Insn::Vxor(w) | Insn::Vor(w) => vector::flagged(1, w),
        Insn::VsubS(w) | Insn::Vbitop(w) | Insn::Vminabs(w) => vector::flagged(2, w),
        Insn::Vadd9(w) | Insn::Vclip(w) => vector::flagged(3, w),
        Insn::Vmov(w) => vector::flagged(0, w),
        Insn::Vswz(w) => vector::swz(w),
        Insn::Vcmpad(w, mask) => vector::cmpad(w, mask),
        Insn::MovVc(w) => vector::mov_vc(w),
        Insn::Nop => list::none(),
        Insn::Setlo(w) => address::set(Half::Low, w),
        Insn::Sethi(w) => address::set(Half::High, w),
        Insn::Add(w, side) => address::sum(w, side as usize),
        Insn::Bitop(w) => address::bitop(w),
        Insn::Aadd(w, side) => address::aadd(w, side),
        Insn::Ldvh(w) => address::load(Way::Horizontal, w, a),
        Insn::Ldvv(w) => address::load(Way::Vertical, w, a),
        Insn::Lds(w) => address::load(Way::Scalar, w, a),
        Insn::Stvh(w) => address::store(Way::Horizontal, w, a),
        Insn::Stvv(w) => address::store(Way::Vertical, w, a),
        Insn::Sts(w) => address::store(Way::Scalar, w, a),
        Insn::Ldavh(o) => address::load_moving(Way::Horizontal, o, a),
        Insn::Ldavv(o) => address::load_moving(Way::Vertical, o, a),
        Insn::Ldas(o) => address::load_moving(Way::Scalar, o, a),
        Insn::Stavh(o) => address::store_moving(Way::Horizontal, o, a),
        Insn::Stavv(o) => address::store_moving(Way::Vertical, o, a),
        Insn::Stas(o) => address::store_moving(Way::Scalar, o, a),
    }
}
