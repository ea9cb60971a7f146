// The address unit's instructions, each on the lent pieces that it may read or change. Each takes the word, so that only the fields that it
// uses are cut from it, and hands back what it counts.
#![tactic(auto, unfolding(crate::specs::Inner::Effect::result_of, crate::specs::Inner::Effect::addressed, crate::specs::Inner::Effect::counted_in))]

ghost use Rattle.std.specs.Prelude.{◌≡◌, ◌<◌, [], slice_set};
ghost use Rattle.banks.specs.Inner.Access.{cells_of};
ghost use Rattle.terms.specs.declared.Way.TheVariants.{Horizontal, Vertical, Scalar};
ghost use Rattle.words.specs.Inner.Bounded.{BoundedI};
ghost use Rattle.words.specs.Fields.{fields_of};
ghost use Rattle.words.specs.Table.{set_of, add_of, aadd_of, bitop_of, ld_of, st_of, lda_of, sta_of};
ghost use Rattle.terms.specs.declared.Half.TheVariants.{Low, High};
ghost use Rattle.pieces.specs.Inner.Regs.{plus, end_at, long_at};
ghost use Rattle.address.specs.Inner.Effect.{five, base_in, inc_of, addr_at, result_from, result_of};

mod access;

use access::{Access, Column, Row, Word};
use pieces::Base;
use terms::{Counted, Half};
use words::{AccessAdd, Fields, Increment};

// The fields of $a[n].
#[tactic(auto, unfolding(pieces::specs::Inner::Regs::base_of))]
fn base_at(a: &[u32; 32], n: usize) -> Base
    requires { n < 32 }
    ensures { (result ≡ base_in a.now n) × (result.stride < 4) }
{
    pieces::base_of(a[n])
}

// What is added to addr: the low half of a register, or of the immediate. (`BoundedI` is no type's: the model's instructions hold a `words::Increment` too, of any number.)
#[tactic(auto, unfolding(crate::specs::Inner::Effect::inc_of))]
fn increment(inc: Increment, a: &[u32; 32]) -> u16
    requires { BoundedI inc }
    ensures { result ≡ inc_of inc a.now }
{
    match inc {
        Increment::Register(n) => (a[n as usize] % 65536) as u16,
        Increment::Immediate(i) => signed::low16(i),
    }
}

// The end flag: the sum against the limit. (Of ld and st too, which form their address by OR.)
fn mark_end(b: Base, y: u16, cdst: usize, c: &mut [u32; 4])
    ensures { c.new ≡ end_at cdst (plus b.addr y) b.limit c.old }
{
    pieces::set_end(c, cdst, b.addr.wrapping_add(y), b.limit);
}

// addr of $a[n] moved on by y, and the end flag.
fn advance(n: usize, y: u16, cdst: usize, a: &mut [u32; 32], c: &mut [u32; 4])
    requires { n < 32 }
    ensures { (a.new ≡ addr_at n (plus (base_in a.old n).addr y) a.old)
        × (c.new ≡ end_at cdst (plus (base_in a.old n).addr y) (base_in a.old n).limit c.old) }
{
    let b = pieces::base_of(a[n]);
    a[n] = pieces::moved(a[n], y);
    mark_end(b, y, cdst, c);
}

// $a[n] moved on after the access of ldav., ldas, stav. or stas.
fn move_on(n: usize, inc: Increment, cdst: usize, a: &mut [u32; 32], c: &mut [u32; 4])
    requires { (n < 32) × BoundedI inc }
    ensures { (a.new ≡ addr_at n (plus (base_in a.old n).addr (inc_of inc a.old)) a.old)
        × (c.new ≡ end_at cdst (plus (base_in a.old n).addr (inc_of inc a.old)) (base_in a.old n).limit c.old) }
{
    advance(n, increment(inc, a), cdst, a, c);
}

// What an access counts: the cells that it enters.
fn entered<W: Access>(code: usize) -> Counted
    ensures { result ≡ Counted.Cells (cells_of W.WAY code) }
{
    Counted::Cells(banks::cells(W::WAY, code))
}

// The result of add and bitop, and its long flags.
fn put_result(f: Fields, res: u32, a: &mut [u32; 32], c: &mut [u32; 4]) -> Counted
    requires { f.dst < 32 }
    ensures { (result ≡ Counted.Nothing) × (a.new ≡ slice_set a.old f.dst res) × (c.new ≡ long_at f.flags res c.old) }
{
    a[f.dst] = res;
    pieces::set_long(c, f.flags, res);
    Counted::Nothing
}

fn set(half: Half, word: u32, a: &mut [u32; 32]) -> Counted
    ensures { result_from result (five [] a.new [] [] [])
        ≡ result_of (set_of (fields_of word) half) (five [] a.old [] [] []) }
{
    let f = words::cut(word);
    a[f.dst] = pieces::with_half(half, f.half, a[f.dst]);
    Counted::Nothing
}

pub fn setlo(word: u32, a: &mut [u32; 32]) -> Counted
    ensures { result_from result (five [] a.new [] [] [])
        ≡ result_of (set_of (fields_of word) Low) (five [] a.old [] [] []) }
{
    set(Half::Low, word, a)
}

pub fn sethi(word: u32, a: &mut [u32; 32]) -> Counted
    ensures { result_from result (five [] a.new [] [] [])
        ≡ result_of (set_of (fields_of word) High) (five [] a.old [] [] []) }
{
    set(Half::High, word, a)
}

pub fn add(word: u32, index: u32, a: &mut [u32; 32], c: &mut [u32; 4]) -> Counted
    requires { index < 32 }
    ensures { result_from result (five [] a.new [] c.new [])
        ≡ result_of (add_of (fields_of word) index) (five [] a.old [] c.old []) }
{
    let f = words::cut(word);
    put_result(f, a[f.src1].wrapping_add(a[index as usize]), a, c)
}

pub fn aadd(word: u32, index: u32, a: &mut [u32; 32], c: &mut [u32; 4]) -> Counted
    requires { index < 32 }
    ensures { result_from result (five [] a.new [] c.new [])
        ≡ result_of (aadd_of (fields_of word) index) (five [] a.old [] c.old []) }
{
    let f = words::cut(word);
    let y = (a[index as usize] % 65536) as u16;
    advance(f.dst, y, f.flags, a, c);
    Counted::Nothing
}

pub fn bitop(word: u32, a: &mut [u32; 32], c: &mut [u32; 4]) -> Counted
    ensures { result_from result (five [] a.new [] c.new [])
        ≡ result_of (bitop_of (fields_of word)) (five [] a.old [] c.old []) }
{
    let f = words::cut(word);
    put_result(f, bits::bitop32(f.bitop, a[f.src1], a[f.src2]), a, c)
}

// ldvh, ldvv and lds. What follows each such function names its instructions, with the equation of each.
fn ld<W: Access>(
    word: u32,
    ds: &[u8; 8192],
    a: &[u32; 32],
    c: &mut [u32; 4],
    registers: &mut W::Registers,
) -> Counted
    ensures { result_from result (five ds.now a.now (W.as_r registers.new) c.new (W.as_v registers.new))
        ≡ result_of (ld_of (fields_of word) W.WAY) (five ds.now a.now (W.as_r registers.old) c.old (W.as_v registers.old)) }
{
    let f = words::cut(word);
    let b = base_at(a, f.src1);
    let x = banks::joined(b.addr, f.uimm);
    W::load(f.dst, b.stride, x as usize, ds, registers);
    mark_end(b, f.uimm, f.flags, c);
    entered::<W>(b.stride)
}

pub fn ldvh(
    word: u32,
    ds: &[u8; 8192],
    a: &[u32; 32],
    c: &mut [u32; 4],
    v: &mut [u8; 512],
) -> Counted
    ensures { result_from result (five ds.now a.now [] c.new v.new)
        ≡ result_of (ld_of (fields_of word) Horizontal) (five ds.now a.now [] c.old v.old) }
{
    ld::<Row>(word, ds, a, c, v)
}

pub fn ldvv(
    word: u32,
    ds: &[u8; 8192],
    a: &[u32; 32],
    c: &mut [u32; 4],
    v: &mut [u8; 512],
) -> Counted
    ensures { result_from result (five ds.now a.now [] c.new v.new)
        ≡ result_of (ld_of (fields_of word) Vertical) (five ds.now a.now [] c.old v.old) }
{
    ld::<Column>(word, ds, a, c, v)
}

pub fn lds(
    word: u32,
    ds: &[u8; 8192],
    a: &[u32; 32],
    c: &mut [u32; 4],
    r: &mut [u32; 32],
) -> Counted
    ensures { result_from result (five ds.now a.now r.new c.new [])
        ≡ result_of (ld_of (fields_of word) Scalar) (five ds.now a.now r.old c.old []) }
{
    ld::<Word>(word, ds, a, c, r)
}

// stvh, stvv and sts.
fn st<W: Access>(
    word: u32,
    ds: &mut [u8; 8192],
    a: &[u32; 32],
    c: &mut [u32; 4],
    registers: &W::Registers,
) -> Counted
    ensures { result_from result (five ds.new a.now (W.as_r registers.now) c.new (W.as_v registers.now))
        ≡ result_of (st_of (fields_of word) W.WAY) (five ds.old a.now (W.as_r registers.now) c.old (W.as_v registers.now)) }
{
    let f = words::cut(word);
    let b = base_at(a, f.dst);
    let x = banks::joined(b.addr, f.uimm);
    W::store(f.src1, b.stride, x as usize, ds, registers);
    mark_end(b, f.uimm, f.flags, c);
    entered::<W>(b.stride)
}

pub fn stvh(
    word: u32,
    ds: &mut [u8; 8192],
    a: &[u32; 32],
    c: &mut [u32; 4],
    v: &[u8; 512],
) -> Counted
    ensures { result_from result (five ds.new a.now [] c.new v.now)
        ≡ result_of (st_of (fields_of word) Horizontal) (five ds.old a.now [] c.old v.now) }
{
    st::<Row>(word, ds, a, c, v)
}

pub fn stvv(
    word: u32,
    ds: &mut [u8; 8192],
    a: &[u32; 32],
    c: &mut [u32; 4],
    v: &[u8; 512],
) -> Counted
    ensures { result_from result (five ds.new a.now [] c.new v.now)
        ≡ result_of (st_of (fields_of word) Vertical) (five ds.old a.now [] c.old v.now) }
{
    st::<Column>(word, ds, a, c, v)
}

pub fn sts(
    word: u32,
    ds: &mut [u8; 8192],
    a: &[u32; 32],
    c: &mut [u32; 4],
    r: &[u32; 32],
) -> Counted
    ensures { result_from result (five ds.new a.now r.now c.new [])
        ≡ result_of (st_of (fields_of word) Scalar) (five ds.old a.now r.now c.old []) }
{
    st::<Word>(word, ds, a, c, r)
}

// ldavh, ldavv and ldas.
fn lda<W: Access>(
    o: AccessAdd,
    ds: &[u8; 8192],
    a: &mut [u32; 32],
    c: &mut [u32; 4],
    registers: &mut W::Registers,
) -> Counted
    requires { BoundedI o.inc }
    ensures { result_from result (five ds.now a.new (W.as_r registers.new) c.new (W.as_v registers.new))
        ≡ result_of (lda_of (fields_of o.bits) W.WAY o.inc) (five ds.now a.old (W.as_r registers.old) c.old (W.as_v registers.old)) }
{
    let f = words::cut(o.bits);
    let b = base_at(a, f.src1);
    W::load(f.dst, b.stride, b.addr as usize, ds, registers);
    move_on(f.src1, o.inc, f.flags, a, c);
    entered::<W>(b.stride)
}

pub fn ldavh(
    o: AccessAdd,
    ds: &[u8; 8192],
    a: &mut [u32; 32],
    c: &mut [u32; 4],
    v: &mut [u8; 512],
) -> Counted
    requires { BoundedI o.inc }
    ensures { result_from result (five ds.now a.new [] c.new v.new)
        ≡ result_of (lda_of (fields_of o.bits) Horizontal o.inc) (five ds.now a.old [] c.old v.old) }
{
    lda::<Row>(o, ds, a, c, v)
}

pub fn ldavv(
    o: AccessAdd,
    ds: &[u8; 8192],
    a: &mut [u32; 32],
    c: &mut [u32; 4],
    v: &mut [u8; 512],
) -> Counted
    requires { BoundedI o.inc }
    ensures { result_from result (five ds.now a.new [] c.new v.new)
        ≡ result_of (lda_of (fields_of o.bits) Vertical o.inc) (five ds.now a.old [] c.old v.old) }
{
    lda::<Column>(o, ds, a, c, v)
}

pub fn ldas(
    o: AccessAdd,
    ds: &[u8; 8192],
    a: &mut [u32; 32],
    c: &mut [u32; 4],
    r: &mut [u32; 32],
) -> Counted
    requires { BoundedI o.inc }
    ensures { result_from result (five ds.now a.new r.new c.new [])
        ≡ result_of (lda_of (fields_of o.bits) Scalar o.inc) (five ds.now a.old r.old c.old []) }
{
    lda::<Word>(o, ds, a, c, r)
}

// stavh, stavv and stas.
fn sta<W: Access>(
    o: AccessAdd,
    ds: &mut [u8; 8192],
    a: &mut [u32; 32],
    c: &mut [u32; 4],
    registers: &W::Registers,
) -> Counted
    requires { BoundedI o.inc }
    ensures { result_from result (five ds.new a.new (W.as_r registers.now) c.new (W.as_v registers.now))
        ≡ result_of (sta_of (fields_of o.bits) W.WAY o.inc) (five ds.old a.old (W.as_r registers.now) c.old (W.as_v registers.now)) }
{
    let f = words::cut(o.bits);
    let b = base_at(a, f.dst);
    W::store(f.src1, b.stride, b.addr as usize, ds, registers);
    move_on(f.dst, o.inc, f.flags, a, c);
    entered::<W>(b.stride)
}

pub fn stavh(
    o: AccessAdd,
    ds: &mut [u8; 8192],
    a: &mut [u32; 32],
    c: &mut [u32; 4],
    v: &[u8; 512],
) -> Counted
    requires { BoundedI o.inc }
    ensures { result_from result (five ds.new a.new [] c.new v.now)
        ≡ result_of (sta_of (fields_of o.bits) Horizontal o.inc) (five ds.old a.old [] c.old v.now) }
{
    sta::<Row>(o, ds, a, c, v)
}

pub fn stavv(
    o: AccessAdd,
    ds: &mut [u8; 8192],
    a: &mut [u32; 32],
    c: &mut [u32; 4],
    v: &[u8; 512],
) -> Counted
    requires { BoundedI o.inc }
    ensures { result_from result (five ds.new a.new [] c.new v.now)
        ≡ result_of (sta_of (fields_of o.bits) Vertical o.inc) (five ds.old a.old [] c.old v.now) }
{
    sta::<Column>(o, ds, a, c, v)
}

pub fn stas(
    o: AccessAdd,
    ds: &mut [u8; 8192],
    a: &mut [u32; 32],
    c: &mut [u32; 4],
    r: &[u32; 32],
) -> Counted
    requires { BoundedI o.inc }
    ensures { result_from result (five ds.new a.new r.now c.new [])
        ≡ result_of (sta_of (fields_of o.bits) Scalar o.inc) (five ds.old a.old r.now c.old []) }
{
    sta::<Word>(o, ds, a, c, r)
}
