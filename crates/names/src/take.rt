// The fields that the texts of a line would be, were they the operands of an opcode: each in its bits of the word.
ghost use Rattle.std.specs.Prelude.{◌≡◌, cond, not, List, ◌∷◌, ◌+◌, ◌-◌, ◌<◌, ◌≤◌, eqb, length, drop};
ghost use Rattle.names.specs.Line.{Operand};
ghost use Rattle.names.specs.Inner.Scan.{split, present, gathered};
ghost use Rattle.names.specs.Inner.Code.{taken_at, slot_at, listed};

use crate::Place;
use crate::scan::{byte_at, count, digits, next};

fn signed_taken(text: &[u8], at: usize) -> u32
    requires { at ≤ length text.now }
    ensures { (result ≡ taken_at 15 (split (drop at text.now)).0) × (result < 16777216) }
{
    if byte_at(text, at) == b'-' {
        return away(digits(text, at, 3, 16)) % 2048 * 8;
    }
    digits(text, at, 2, 16) % 2048 * 8
}

fn away(n: u32) -> u32
    ensures { (result ≡ 2048 - n) × (result ≤ 2048) }
{
    2048u32.saturating_sub(n)
}

fn half_taken(text: &[u8], at: usize) -> u32
    requires { at ≤ length text.now }
    ensures { (result ≡ taken_at 19 (split (drop at text.now)).0) × (result < 16777216) }
{
    if byte_at(text, at) == b'h' {
        return 8;
    }
    0
}

// The field of an operand that the text at a place would be, in its bits of the word. The operand goes by its number in the table's forms (form_of, whose
// contract fixes these numbers).
fn taken(o: u32, text: &[u8], at: usize) -> u32
    requires { at ≤ length text.now }
    ensures { (result ≡ taken_at o (split (drop at text.now)).0) × (result < 16777216) }
{
    match o {
        1 => digits(text, at, 2, 10) % 32 * 524288,
        2 => digits(text, at, 2, 10) % 32 * 16384,
        3 => digits(text, at, 2, 10) % 32 * 512,
        4 => digits(text, at, 2, 10) % 32 * 524288,
        5 => digits(text, at, 2, 10) % 32 * 16384,
        6 => digits(text, at, 2, 10) % 32 * 524288,
        7 => digits(text, at, 2, 10) % 32 * 16384,
        8 => digits(text, at, 2, 10) % 32 * 512,
        9 => digits(text, at, 2, 10) % 32 * 16,
        10 => digits(text, at, 2, 10) % 8,
        11 => digits(text, at, 3, 10) % 8,
        12 => 0,
        13 => digits(text, at, 2, 16) % 256 * 8,
        14 => digits(text, at, 2, 16) % 2048 * 8,
        15 => signed_taken(text, at),
        16 => digits(text, at, 2, 16),
        17 => digits(text, at, 2, 16) % 16 * 8,
        18 => digits(text, at, 2, 16) % 16 * 524288,
        _ => half_taken(text, at),
    }
}

// A flags register is left out where there are no more texts than operands after it.
fn absent(o: u32, after: usize, left: usize) -> bool
    ensures { result ≡ not (present (slot_at o).kind after left) }
{
    match o {
        10 | 11 => left <= after,
        _ => false,
    }
}

// One operand of the form: 0 is none.
fn one_operand(text: &[u8], s: Place, o: u32, after: usize) -> Place
    requires { (s.at ≤ length text.now) × (s.left ≡ length (split (drop s.at text.now)).1) × (s.word < 4278190080) }
    ensures { (result.at ≤ length text.now) × (result.left ≡ length (split (drop result.at text.now)).1) × (result.word ≤ s.word + 16777216) × ((os : List Operand) → length os ≡ after → s.word + gathered (cond (eqb o 0) os (slot_at o ∷ os)) (split (drop s.at text.now)).1 ≡ result.word + gathered os (split (drop result.at text.now)).1) }
{
    if o == 0 {
        return s;
    }
    let at = s.at;
    let left = s.left;
    let w = s.word;
    if absent(o, after, left) {
        return Place { word: w + 7, ..s };
    }
    let p = next(text, at);
    let v = taken(o, text, p);
    Place {
        word: w + v,
        at: p,
        left: left.saturating_sub(1),
    }
}

fn some(o: u32) -> usize
    ensures { (result ≡ cond (eqb o 0) 0 1) × (result ≤ 1) }
{
    usize::from(o != 0)
}

// The five places of a form, gathered from the texts after a place.
pub fn gather_all(text: &[u8], at: usize, f: u32, w: u32) -> u32
    requires { (at ≤ length text.now) × (w ≤ 3741319168) }
    ensures { result ≡ w + gathered (listed 5 f) (split (drop at text.now)).1 }
{
    let f1 = f / 32;
    let f2 = f1 / 32;
    let f3 = f2 / 32;
    let f4 = f3 / 32;
    let n4 = some(f4 % 32);
    let n3 = n4 + some(f3 % 32);
    let n2 = n3 + some(f2 % 32);
    let n1 = n2 + some(f1 % 32);
    let n = count(text, at);
    let s0 = Place {
        word: w,
        at,
        left: n,
    };
    let s1 = one_operand(text, s0, f % 32, n1);
    let s2 = one_operand(text, s1, f1 % 32, n2);
    let s3 = one_operand(text, s2, f2 % 32, n3);
    let s4 = one_operand(text, s3, f3 % 32, n4);
    let s5 = one_operand(text, s4, f4 % 32, 0);
    s5.word
}
