// What an instruction of the vector unit touches, by the kind of its operands, cut from the word.
ghost use Rattle.std.specs.Prelude.{◌∷◌, ◌++◌, ◌≡◌, ◌<◌, take};
ghost use Rattle.words.specs.Fields.{fields_of};
ghost use Rattle.words.specs.Inner.Meant.{second_by};
ghost use Rattle.words.specs.Table.{swz_of, cmpad_of, mov_flags_of};
ghost use Rattle.pieces.specs.Place.{vec};
ghost use Rattle.model.specs.Table.{second, flags_of, reads_v, writes_v};
ghost use Rattle.footprint.specs.Inner.Numbers.{nothing, Adds, touched, sources_in, flagged_in};

use crate::{Numbers, Touches, list};
use words::Fields;

// The first n of the three sources.
fn sources(n: usize, f: Fields) -> Numbers
    requires { (f.src1 < 32) × (f.src2 < 32) × (f.src3 < 32) }
    ensures { Adds nothing (take n (sources_in f)) result }
{
    let none = list::empty();
    if n == 0 {
        return none;
    }
    let one = list::put_vector(none, f.src1);
    if n == 1 {
        return one;
    }
    let two = list::put_vector(one, f.src2);
    if n == 2 {
        return two;
    }
    list::put_vector(two, f.src3)
}

// A vector result with its flags, from the first n sources.
pub fn flagged(n: usize, w: u32) -> Touches
    ensures { result ≡ touched (take n (sources_in (fields_of w))) (flagged_in (fields_of w)) }
{
    let f = words::cut(w);
    let read = sources(n, f);
    let list = list::put_flags(list::put_vector(read, f.dst), f.flags);
    Touches {
        list,
        reads: read.count,
    }
}

// Source 2 is read where the opcode says that it is a register.
pub fn by_op(w: u32) -> Touches
    ensures { result ≡ touched (vec (fields_of w).src1 ∷ second (second_by w)) (flagged_in (fields_of w)) }
{
    if words::by_byte(w) {
        flagged(1, w)
    } else {
        flagged(2, w)
    }
}

pub fn swz(w: u32) -> Touches
    ensures { result ≡ touched (reads_v (swz_of (fields_of w))) (writes_v (swz_of (fields_of w))) }
{
    let f = words::cut(w);
    let read = sources(3, f);
    let list = list::put_vector(read, f.dst);
    Touches {
        list,
        reads: read.count,
    }
}

// Source 1 is a pair of registers.
pub fn cmpad(w: u32, mask: u32) -> Touches
    ensures { result ≡ touched (reads_v (cmpad_of (fields_of w) mask)) (writes_v (cmpad_of (fields_of w) mask)) }
{
    let f = words::cut(w);
    let pair = list::put_vector(sources(1, f), f.src1 | 1);
    let read = list::put_input(list::put_vector(pair, f.src2), f.flags, mask);
    let list = list::put_flags(read, f.flags);
    Touches {
        list,
        reads: read.count,
    }
}

// All flags of $vc.
fn all_flags() -> Numbers
    ensures { Adds nothing (flags_of 0 ++ flags_of 1 ++ flags_of 2 ++ flags_of 3) result }
{
    let two = list::put_flags(list::put_flags(list::empty(), 0), 1);
    list::put_flags(list::put_flags(two, 2), 3)
}

pub fn mov_vc(w: u32) -> Touches
    ensures { result ≡ touched (reads_v (mov_flags_of (fields_of w))) (writes_v (mov_flags_of (fields_of w))) }
{
    let f = words::cut(w);
    let read = all_flags();
    let list = list::put_vector(read, f.dst);
    Touches {
        list,
        reads: read.count,
    }
}
