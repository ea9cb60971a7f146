// What an instruction of the address unit touches, by the kind of its operands, cut from the word.
ghost use Rattle.std.specs.Prelude.{[], ◌∷◌, ◌++◌, ◌≡◌, ◌<◌};
ghost use Rattle.words.specs.Inner.Bounded.{BoundedI};
ghost use Rattle.words.specs.Fields.{fields_of};
ghost use Rattle.words.specs.Table.{set_of, add_of, aadd_of, bitop_of, ld_of, st_of, lda_of, sta_of};
ghost use Rattle.pieces.specs.Place.{alo};
ghost use Rattle.model.specs.Table.{halves, increment, short_of};
ghost use Rattle.footprint.specs.Inner.Numbers.{nothing, Adds, addressed};

use crate::{Numbers, Touches, list};
use terms::{Half, Way};
use words::{AccessAdd, Increment};

pub fn set(half: Half, w: u32) -> Touches
    ensures { result ≡ addressed (set_of (fields_of w) half) [] }
{
    let f = words::cut(w);
    let read = list::empty();
    let list = list::put_half(read, half, f.dst);
    Touches {
        list,
        reads: read.count,
    }
}

// A 32-bit result and its flags, from source 1 and a second register.
pub fn sum(w: u32, second: usize) -> Touches
    requires { second < 32 }
    ensures { result ≡ addressed (add_of (fields_of w) second) [] }
{
    let f = words::cut(w);
    let read = list::put_halves(list::put_halves(list::empty(), f.src1), second);
    let list = list::put_flag(list::put_halves(read, f.dst), Half::Low, f.flags);
    Touches {
        list,
        reads: read.count,
    }
}

pub fn bitop(w: u32) -> Touches
    ensures { result ≡ addressed (bitop_of (fields_of w)) [] }
{
    let f = words::cut(w);
    sum(w, f.src2)
}

// A base and what it is moved on by.
fn moving(n: usize, inc: Increment) -> Numbers
    requires { (n < 32) × BoundedI inc }
    ensures { Adds nothing (halves n ++ increment inc) result }
{
    list::put_increment(list::put_halves(list::empty(), n), inc)
}

// A base that was moved, and the end flag.
fn put_moved(l: Numbers, n: usize, cdst: usize) -> Numbers
    requires { n < 32 }
    ensures { Adds l (alo n ∷ short_of cdst) result }
{
    let moved = list::put_half(l, Half::Low, n);
    list::put_flag(moved, Half::High, cdst)
}

pub fn aadd(w: u32, side: u32) -> Touches
    requires { side < 32 }
    ensures { result ≡ addressed (aadd_of (fields_of w) side) [] }
{
    let f = words::cut(w);
    let read = moving(f.dst, Increment::Register(side));
    let list = put_moved(read, f.dst, f.flags);
    Touches {
        list,
        reads: read.count,
    }
}

pub fn load(way: Way, w: u32, a: &[u32; 32]) -> Touches
    ensures { result ≡ addressed (ld_of (fields_of w) way) a.now }
{
    let f = words::cut(w);
    let base = list::put_halves(list::empty(), f.src1);
    let read = list::put_access(base, way, f.src1, f.uimm, a);
    let list = list::put_flag(list::put_datum(read, way, f.dst), Half::High, f.flags);
    Touches {
        list,
        reads: read.count,
    }
}

pub fn store(way: Way, w: u32, a: &[u32; 32]) -> Touches
    ensures { result ≡ addressed (st_of (fields_of w) way) a.now }
{
    let f = words::cut(w);
    let base = list::put_halves(list::empty(), f.dst);
    let read = list::put_datum(base, way, f.src1);
    let bytes = list::put_access(read, way, f.dst, f.uimm, a);
    let list = list::put_flag(bytes, Half::High, f.flags);
    Touches {
        list,
        reads: read.count,
    }
}

pub fn load_moving(way: Way, o: AccessAdd, a: &[u32; 32]) -> Touches
    requires { BoundedI o.inc }
    ensures { result ≡ addressed (lda_of (fields_of o.bits) way o.inc) a.now }
{
    let f = words::cut(o.bits);
    let inc = o.inc;
    let base = moving(f.src1, inc);
    let read = list::put_access(base, way, f.src1, 0, a);
    let list = put_moved(list::put_datum(read, way, f.dst), f.src1, f.flags);
    Touches {
        list,
        reads: read.count,
    }
}

pub fn store_moving(way: Way, o: AccessAdd, a: &[u32; 32]) -> Touches
    requires { BoundedI o.inc }
    ensures { result ≡ addressed (sta_of (fields_of o.bits) way o.inc) a.now }
{
    let f = words::cut(o.bits);
    let inc = o.inc;
    let base = moving(f.dst, inc);
    let read = list::put_datum(base, way, f.src1);
    let bytes = list::put_access(read, way, f.dst, 0, a);
    let list = put_moved(bytes, f.dst, f.flags);
    Touches {
        list,
        reads: read.count,
    }
}
