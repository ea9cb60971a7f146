// A list of numbers with one place or a few more, each kind of place by its number.
ghost use Rattle.std.specs.Prelude.{◌≡◌, [], ◌∷◌, ◌<◌, ◌+◌};
ghost use Rattle.banks.specs.Bank.{at as atBank};
ghost use Rattle.banks.specs.Line.{count_of};
ghost use Rattle.words.specs.Inner.Bounded.{BoundedI};
ghost use Rattle.words.specs.Fields.{input_of};
ghost use Rattle.pieces.specs.State.{A as PieceA, C as PieceC};
ghost use Rattle.pieces.specs.Place.{at, vec, xlat};
ghost use Rattle.model.specs.Number.{side};
ghost use Rattle.model.specs.Table.{halves, datum, increment, input, written, flags_of, bytes, at_or};
ghost use Rattle.footprint.specs.Inner.Numbers.{nothing, push, Adds, touched, lent};

use crate::{Numbers, Touches};
use terms::{Half, Way};
use words::Increment;

pub fn empty() -> Numbers
    ensures { Adds nothing [] result }
{
    Numbers {
        numbers: [0u32; 22],
        count: 0,
    }
}

// Nothing read and nothing written.
pub fn none() -> Touches
    ensures { result ≡ touched [] [] }
{
    let list = empty();
    Touches {
        list,
        reads: list.count,
    }
}

// With one number more. A full list stays as it is; none is ever full before its last number, since no instruction touches more than 22 places.
fn push(l: Numbers, x: usize) -> Numbers
    requires { x < 8336 }
    ensures { result ≡ push l x }
{
    let at = l.count;
    if at < 22 {
        let mut numbers = l.numbers;
        numbers[at] = x as u32;
        return Numbers {
            numbers,
            count: at + 1,
        };
    }
    l
}

fn side(half: Half) -> usize
    ensures { (result ≡ side half) × (result < 2) }
{
    match half {
        Half::Low => 0,
        Half::High => 1,
    }
}

// One half of $a[n].
pub fn put_half(l: Numbers, half: Half, n: usize) -> Numbers
    requires { n < 32 }
    ensures { Adds l (at PieceA n half ∷ []) result }
{
    push(l, 2 * n + side(half))
}

pub fn put_halves(l: Numbers, n: usize) -> Numbers
    requires { n < 32 }
    ensures { Adds l (halves n) result }
{
    put_half(put_half(l, Half::Low, n), Half::High, n)
}

pub fn put_vector(l: Numbers, n: usize) -> Numbers
    requires { n < 32 }
    ensures { Adds l (vec n ∷ []) result }
{
    push(l, 96 + n)
}

// The register of a load or a store.
pub fn put_datum(l: Numbers, way: Way, n: usize) -> Numbers
    requires { n < 32 }
    ensures { Adds l (datum way n ∷ []) result }
{
    match way {
        Way::Horizontal => put_vector(l, n),
        Way::Vertical => put_vector(l, n),
        Way::Scalar => push(l, 64 + n),
    }
}

pub fn put_increment(l: Numbers, inc: Increment) -> Numbers
    requires { BoundedI inc }
    ensures { Adds l (increment inc) result }
{
    match inc {
        Increment::Register(n) => put_half(l, Half::Low, n as usize),
        Increment::Immediate(_) => l,
    }
}

// The input signs of vcmpad, where the side mask word is not a valid mask.
pub fn put_input(l: Numbers, vcdst: usize, mask: u32) -> Numbers
    ensures { Adds l (input vcdst (input_of mask)) result }
{
    if mask < 65536 {
        push(l, 136 + 2 * (vcdst % 4))
    } else {
        l
    }
}

// The long pair or the short bit of $c[cdst], if it is written.
pub fn put_flag(l: Numbers, half: Half, cdst: usize) -> Numbers
    ensures { Adds l (written cdst (at PieceC cdst half ∷ [])) result }
{
    if cdst < 4 {
        push(l, 128 + (2 * cdst + side(half)))
    } else {
        l
    }
}

pub fn put_flags(l: Numbers, vcdst: usize) -> Numbers
    ensures { Adds l (flags_of vcdst) result }
{
    if vcdst < 4 {
        push(push(l, 136 + 2 * vcdst), 137 + 2 * vcdst)
    } else {
        l
    }
}

fn count_of(way: Way) -> usize
    ensures { result ≡ count_of way }
{
    match way {
        Way::Horizontal => 16,
        Way::Vertical => 16,
        Way::Scalar => 4,
    }
}

fn byte_number(code: usize, addr: usize) -> usize
    requires { (code < 4) × (addr < 8192) }
    ensures { (result ≡ 144 + atBank code addr) × (result < 8336) }
{
    144 + (banks::bank(code, addr) * 512 + addr / 16)
}

fn put_bytes(l: Numbers, way: Way, code: usize, addr: usize) -> Numbers
    requires { code < 4 }
    ensures { Adds l (bytes xlat way code addr) result }
{
    let start = banks::start(way, code, addr);
    let step = banks::step(way, code);
    let mut out = l;
    for i in 0..count_of(way) {
        out = push(out, byte_number(code, start + i * step));
    }
    out
}

// The bytes of an access at addr of $a[n] OR uimm.
pub fn put_access(l: Numbers, way: Way, n: usize, uimm: u16, a: &[u32; 32]) -> Numbers
    requires { n < 32 }
    ensures { Adds l (at_or xlat way n uimm (lent a.now)) result }
{
    let b = pieces::base_of(a[n]);
    let addr = banks::joined(b.addr, uimm);
    put_bytes(l, way, b.stride, addr as usize)
}
