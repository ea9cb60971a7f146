// The vector unit's instructions, on the two pieces that it changes: sources are read into values first, then the result is written.
// Each takes the word, so that only the fields that it uses are cut from it, and hands back what it counts.
#![tactic(auto, using(crate::proofs::Laws::laws), unfolding(crate::specs::Inner::Effect::result_of, crate::specs::Inner::Effect::counted_of, crate::specs::Inner::Effect::vectored, ports::specs::Inner::Ports::second_of, pieces::specs::Inner::Regs::flags_at))]

ghost use Rattle.std.specs.Prelude.{◌≡◌, true, false, []};
ghost use Rattle.lane.specs.declared.Calc.TheVariants.{Min, Max, Abs, Neg, Add, Sub};
ghost use Rattle.lane.specs.declared.Logic.TheVariants.{And, Xor, Or};
ghost use Rattle.words.specs.Fields.{fields_of};
ghost use Rattle.words.specs.Inner.Meant.{second_by};
ghost use Rattle.words.specs.Table.{arith_of, shift_of, clip_of, add9_of, min_abs_of, vbitop_of, logic_of, cmpad_of, swz_of, mov_of, mov_imm_of, mov_flags_of};
ghost use Rattle.words.specs.Second.{Register, Absent};
ghost use Rattle.lanes.specs.Inner.Unpacked.{packs};
ghost use Rattle.pieces.specs.Inner.Regs.{vreg_of};
ghost use Rattle.ports.specs.Inner.Ports.{vectors, second_of, lanes_at, result_from};
ghost use Rattle.vector.specs.Inner.Effect.{result_of};

use lanes::Unpacked;
use terms::Counted;

// An operation of the register SRC1.
fn one<F: FnOnce([u8; 16]) -> Unpacked>(op: F, word: u32, v: &[u8; 512]) -> Unpacked
    requires { F.IsAlwaysCallable op }
    ensures { F.post op (vreg_of v.now (fields_of word).src1) result }
{
    op(pieces::vreg(v, words::cut(word).src1))
}

// An operation of two sources, of which the second is a register or BIMM by the opcode.
fn with_second<F: FnOnce([u8; 16], [u8; 16]) -> Unpacked>(
    op: F,
    word: u32,
    v: &[u8; 512],
) -> Unpacked
    requires { F.IsAlwaysCallable op }
    ensures { F.post op (vreg_of v.now (fields_of word).src1) (second_of (second_by word) v.now) result }
{
    op(
        pieces::vreg(v, words::cut(word).src1),
        ports::second_of(word, v),
    )
}

// An operation of the registers SRC1 and SRC2.
fn two<F: FnOnce([u8; 16], [u8; 16]) -> Unpacked>(op: F, word: u32, v: &[u8; 512]) -> Unpacked
    requires { F.IsAlwaysCallable op }
    ensures { F.post op (vreg_of v.now (fields_of word).src1) (vreg_of v.now (fields_of word).src2) result }
{
    let f = words::cut(word);
    op(pieces::vreg(v, f.src1), pieces::vreg(v, f.src2))
}

// An operation of the registers SRC1, SRC2 and SRC3.
fn three<F: FnOnce([u8; 16], [u8; 16], [u8; 16]) -> Unpacked>(
    op: F,
    word: u32,
    v: &[u8; 512],
) -> Unpacked
    requires { F.IsAlwaysCallable op }
    ensures { F.post op (vreg_of v.now (fields_of word).src1) (vreg_of v.now (fields_of word).src2) (vreg_of v.now (fields_of word).src3) result }
{
    let f = words::cut(word);
    op(
        pieces::vreg(v, f.src1),
        pieces::vreg(v, f.src2),
        pieces::vreg(v, f.src3),
    )
}

// An operation of the register SRC1 and of BIMM.
fn with_byte<F: FnOnce([u8; 16], u8) -> Unpacked>(op: F, word: u32, v: &[u8; 512]) -> Unpacked
    requires { F.IsAlwaysCallable op }
    ensures { F.post op (vreg_of v.now (fields_of word).src1) (fields_of word).byte result }
{
    let f = words::cut(word);
    op(pieces::vreg(v, f.src1), f.byte)
}

// The result of an instruction that counts nothing.
fn put(m: Unpacked, word: u32, vc: &mut [u32; 4], v: &mut [u8; 512]) -> Counted
    ensures { result_from result (vectors vc.new v.new) ≡ result_from Counted.Nothing (lanes_at (fields_of word).dst (fields_of word).flags (packs m) (vectors vc.old v.old)) }
{
    let f = words::cut(word);
    ports::put(m, f.dst, f.flags, vc, v)
}

// The result of one that counts the components that were clipped.
fn put_clipped(m: Unpacked, word: u32, vc: &mut [u32; 4], v: &mut [u8; 512]) -> Counted
    ensures { result_from result (vectors vc.new v.new) ≡ result_from (Counted.Clipped (packs m).clipped) (lanes_at (fields_of word).dst (fields_of word).flags (packs m) (vectors vc.old v.old)) }
{
    let f = words::cut(word);
    ports::put_clipped(m, f.dst, f.flags, vc, v)
}

pub fn vmin_s(word: u32, vc: &mut [u32; 4], v: &mut [u8; 512]) -> Counted
    ensures { result_from result (vectors vc.new v.new) ≡ result_of (arith_of (fields_of word) Min true (second_by word)) (vectors vc.old v.old) }
{
    put(with_second(loops::arithmetic::vmin_s, word, v), word, vc, v)
}

pub fn vmax_s(word: u32, vc: &mut [u32; 4], v: &mut [u8; 512]) -> Counted
    ensures { result_from result (vectors vc.new v.new) ≡ result_of (arith_of (fields_of word) Max true (second_by word)) (vectors vc.old v.old) }
{
    put(with_second(loops::arithmetic::vmax_s, word, v), word, vc, v)
}

pub fn vadd_s(word: u32, vc: &mut [u32; 4], v: &mut [u8; 512]) -> Counted
    ensures { result_from result (vectors vc.new v.new) ≡ result_of (arith_of (fields_of word) Add true (second_by word)) (vectors vc.old v.old) }
{
    put_clipped(with_second(loops::arithmetic::vadd_s, word, v), word, vc, v)
}

pub fn vsub_s(word: u32, vc: &mut [u32; 4], v: &mut [u8; 512]) -> Counted
    ensures { result_from result (vectors vc.new v.new) ≡ result_of (arith_of (fields_of word) Sub true (Register (fields_of word).src2)) (vectors vc.old v.old) }
{
    put_clipped(two(loops::arithmetic::vsub_s, word, v), word, vc, v)
}

pub fn vmin_u(word: u32, vc: &mut [u32; 4], v: &mut [u8; 512]) -> Counted
    ensures { result_from result (vectors vc.new v.new) ≡ result_of (arith_of (fields_of word) Min false (second_by word)) (vectors vc.old v.old) }
{
    put(with_second(loops::arithmetic::vmin_u, word, v), word, vc, v)
}

pub fn vmax_u(word: u32, vc: &mut [u32; 4], v: &mut [u8; 512]) -> Counted
    ensures { result_from result (vectors vc.new v.new) ≡ result_of (arith_of (fields_of word) Max false (second_by word)) (vectors vc.old v.old) }
{
    put(with_second(loops::arithmetic::vmax_u, word, v), word, vc, v)
}

pub fn vadd_u(word: u32, vc: &mut [u32; 4], v: &mut [u8; 512]) -> Counted
    ensures { result_from result (vectors vc.new v.new) ≡ result_of (arith_of (fields_of word) Add false (second_by word)) (vectors vc.old v.old) }
{
    put_clipped(with_second(loops::arithmetic::vadd_u, word, v), word, vc, v)
}

pub fn vsub_u(word: u32, vc: &mut [u32; 4], v: &mut [u8; 512]) -> Counted
    ensures { result_from result (vectors vc.new v.new) ≡ result_of (arith_of (fields_of word) Sub false (second_by word)) (vectors vc.old v.old) }
{
    put_clipped(with_second(loops::arithmetic::vsub_u, word, v), word, vc, v)
}

pub fn vabs_s(word: u32, vc: &mut [u32; 4], v: &mut [u8; 512]) -> Counted
    ensures { result_from result (vectors vc.new v.new) ≡ result_of (arith_of (fields_of word) Abs true Absent) (vectors vc.old v.old) }
{
    put_clipped(one(loops::arithmetic::vabs_s, word, v), word, vc, v)
}

pub fn vneg_s(word: u32, vc: &mut [u32; 4], v: &mut [u8; 512]) -> Counted
    ensures { result_from result (vectors vc.new v.new) ≡ result_of (arith_of (fields_of word) Neg true Absent) (vectors vc.old v.old) }
{
    put_clipped(one(loops::arithmetic::vneg_s, word, v), word, vc, v)
}

pub fn vabs_u(word: u32, vc: &mut [u32; 4], v: &mut [u8; 512]) -> Counted
    ensures { result_from result (vectors vc.new v.new) ≡ result_of (arith_of (fields_of word) Abs false Absent) (vectors vc.old v.old) }
{
    put_clipped(one(loops::arithmetic::vabs_u, word, v), word, vc, v)
}

pub fn vsar(word: u32, vc: &mut [u32; 4], v: &mut [u8; 512]) -> Counted
    ensures { result_from result (vectors vc.new v.new) ≡ result_of (shift_of (fields_of word) true (second_by word)) (vectors vc.old v.old) }
{
    put(with_second(loops::shifts::vsar, word, v), word, vc, v)
}

pub fn vshr(word: u32, vc: &mut [u32; 4], v: &mut [u8; 512]) -> Counted
    ensures { result_from result (vectors vc.new v.new) ≡ result_of (shift_of (fields_of word) false (second_by word)) (vectors vc.old v.old) }
{
    put(with_second(loops::shifts::vshr, word, v), word, vc, v)
}

pub fn vclip(word: u32, vc: &mut [u32; 4], v: &mut [u8; 512]) -> Counted
    ensures { result_from result (vectors vc.new v.new) ≡ result_of (clip_of (fields_of word)) (vectors vc.old v.old) }
{
    put(three(loops::clamp::vclip, word, v), word, vc, v)
}

pub fn vadd9(word: u32, vc: &mut [u32; 4], v: &mut [u8; 512]) -> Counted
    ensures { result_from result (vectors vc.new v.new) ≡ result_of (add9_of (fields_of word)) (vectors vc.old v.old) }
{
    put_clipped(three(loops::nine::vadd9, word, v), word, vc, v)
}

pub fn vminabs(word: u32, vc: &mut [u32; 4], v: &mut [u8; 512]) -> Counted
    ensures { result_from result (vectors vc.new v.new) ≡ result_of (min_abs_of (fields_of word)) (vectors vc.old v.old) }
{
    put(two(loops::clamp::vminabs, word, v), word, vc, v)
}

// The operation takes its truth table besides: the sources are read here.
pub fn vbitop(word: u32, vc: &mut [u32; 4], v: &mut [u8; 512]) -> Counted
    ensures { result_from result (vectors vc.new v.new) ≡ result_of (vbitop_of (fields_of word)) (vectors vc.old v.old) }
{
    let f = words::cut(word);
    let a = pieces::vreg(v, f.src1);
    let b = pieces::vreg(v, f.src2);
    put(loops::bitwise::vbitop(f.bitop, a, b), word, vc, v)
}

pub fn vand(word: u32, vc: &mut [u32; 4], v: &mut [u8; 512]) -> Counted
    ensures { result_from result (vectors vc.new v.new) ≡ result_of (logic_of (fields_of word) And) (vectors vc.old v.old) }
{
    put(with_byte(loops::bitwise::vand, word, v), word, vc, v)
}

pub fn vxor(word: u32, vc: &mut [u32; 4], v: &mut [u8; 512]) -> Counted
    ensures { result_from result (vectors vc.new v.new) ≡ result_of (logic_of (fields_of word) Xor) (vectors vc.old v.old) }
{
    put(with_byte(loops::bitwise::vxor, word, v), word, vc, v)
}

pub fn vor(word: u32, vc: &mut [u32; 4], v: &mut [u8; 512]) -> Counted
    ensures { result_from result (vectors vc.new v.new) ≡ result_of (logic_of (fields_of word) Or) (vectors vc.old v.old) }
{
    put(with_byte(loops::bitwise::vor, word, v), word, vc, v)
}

pub fn mov(word: u32, vc: &mut [u32; 4], v: &mut [u8; 512]) -> Counted
    ensures { result_from result (vectors vc.new v.new) ≡ result_of (mov_of (fields_of word)) (vectors vc.old v.old) }
{
    put(one(lanes::moves::mov, word, v), word, vc, v)
}

pub fn vmov(word: u32, vc: &mut [u32; 4], v: &mut [u8; 512]) -> Counted
    ensures { result_from result (vectors vc.new v.new) ≡ result_of (mov_imm_of (fields_of word)) (vectors vc.old v.old) }
{
    put(lanes::moves::vmov(words::cut(word).byte), word, vc, v)
}

pub fn mov_vc(word: u32, vc: &[u32; 4], v: &mut [u8; 512]) -> Counted
    ensures { result_from result (vectors vc.now v.new) ≡ result_of (mov_flags_of (fields_of word)) (vectors vc.now v.old) }
{
    let f = words::cut(word);
    pieces::set_vreg(v, f.dst, lanes::moves::mov_vc(vc[0], vc[1], vc[2], vc[3]));
    Counted::Nothing
}

pub fn vswz(word: u32, v: &mut [u8; 512]) -> Counted
    ensures { result_from result (vectors [] v.new) ≡ result_of (swz_of (fields_of word)) (vectors [] v.old) }
{
    let f = words::cut(word);
    let a = pieces::vreg(v, f.src1);
    let b = pieces::vreg(v, f.src2);
    let sel = pieces::vreg(v, f.src3);
    pieces::set_vreg(v, f.dst, lanes::shuffle::vswz(f.hi, a, b, sel));
    Counted::Nothing
}

// Source 1 names a pair of registers: the odd one holds what the distances are compared with. Where there is no $vc[VCDST] nothing is written.
pub fn vcmpad(word: u32, mask: u32, vc: &mut [u32; 4], v: &[u8; 512]) -> Counted
    ensures { result_from result (vectors vc.new v.now) ≡ result_of (cmpad_of (fields_of word) mask) (vectors vc.old v.now) }
{
    let f = words::cut(word);
    if f.flags < 4 {
        let a = pieces::vreg(v, f.src1);
        let other = pieces::vreg(v, f.src1 | 1);
        let b = pieces::vreg(v, f.src2);
        let input = ports::input_of(f.flags, mask, vc);
        let x = loops::compare::vcmpad(f.cmpop, input, a, other, b);
        pieces::set_flags(vc, f.flags, x.signs, x.zeros);
    }
    Counted::Nothing
}
