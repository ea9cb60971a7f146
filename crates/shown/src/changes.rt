// What a step changed: what stands at the places that it writes is noted before it, and compared after it.
ghost use Rattle.std.specs.Prelude.{◌≡◌, ◌/◌, ◌^◌, ◌<◌, ◌≤◌, Some, get_or, ℕ};
ghost use Rattle.orders.specs.declared.Kind.TheVariants.{A};
ghost use Rattle.terms.specs.declared.Half.{Half};
ghost use Rattle.shown.specs.declared.places.Place.TheVariants as P;

use crate::cells::address_of;
use crate::figures::{access, bytes_change};
use crate::parts;
use crate::places::{Place, place_of};
use crate::registers::{named, vector_named};
use crate::state::State;
use crate::subjects::bytes_of;
use crate::view::View;
use orders::{Field, Kind, Subject};
use std::array::from_fn;
use std::io::Stdout;
use terms::Half;
use text::print::text;

// The places that a step writes; the word that each lies in, or the byte of the store; the bytes of the one vector among them; and the stride code of the base
// register.
#[derive(Clone, Copy)]
pub struct Noted {
    places: [Option<Place>; 22],
    words: [u32; 22],
    vector: [u8; 16],
    code: usize,
}

// ---- before the step

// The word of the register that a place lies in, or its byte of the store. A vector is noted by itself.
fn word_at(state: View<'_>, place: Option<Place>) -> u32
    ensures a { (n : ℕ) → (h : Half) → place ≡ Some (P.Half A n h) → result ≡ get_or state.entry.a.now n 0 }
{
    match place {
        Some(Place::Half(kind, n, _)) => state.word(kind, n),
        Some(Place::Byte(i)) => u32::from(state.byte(i)),
        _ => 0,
    }
}

fn words_at(state: View<'_>, places: &[Option<Place>; 22]) -> [u32; 22] {
    from_fn(|i| word_at(state, places[i]))
}

// The vector among the places. No instruction writes two.
fn vector_among(places: &[Option<Place>; 22]) -> Option<usize> {
    places.iter().find_map(|&place| match place {
        Some(Place::Vector(n)) => Some(n),
        _ => None,
    })
}

// The places that are written, which stand behind those that are read.
fn written(places: &[u32; 22], reads: u32, writes: u32) -> [Option<Place>; 22] {
    let behind = places.get(reads as usize..).unwrap_or(&[]);
    let written = behind.get(..writes as usize).unwrap_or(behind);
    from_fn(|i| written.get(i).and_then(|&p| place_of(p)))
}

// The stride code of the register that a place lies in.
fn code_at(state: View<'_>, place: u32) -> usize
    ensures a { place < 64 → result ≡ get_or state.entry.a.now (place / 2) 0 / 2 ^ 30 }
{
    (word_at(state, place_of(place)) >> 30) as usize
}

// Takes down what a step will write: its places, as swap::places lists them in the state before it.
pub fn note_listed(places: &[u32; 22], reads: u32, writes: u32, state: View<'_>) -> Noted {
    let first = places[0];
    let places = written(places, reads, writes);
    let vector = match vector_among(&places) {
        Some(n) => bytes_of(state, Subject::Vector(n)),
        None => [0; 16],
    };
    Noted {
        places,
        words: words_at(state, &places),
        vector,
        // The first place of a load or store lies in its base register; of other steps the code is not used.
        code: code_at(state, first),
    }
}

// The same by the first of all its places, whichever that is, and those that it writes, of which the first 22 are taken.
pub fn note(state: &State, first: u32, written: &[u32]) -> Noted
    ensures code { first < 64 → result.code ≡ get_or state.now.a (first / 2) 0 / 2 ^ 30 }
{
    let n = written.len().min(22);
    let mut places = [0; 22];
    places[..n].copy_from_slice(&written[..n]);
    Noted {
        code: code_at(state.view(), first),
        ..note_listed(&places, 0, n as u32, state.view())
    }
}

// ---- after it: registers

// The parts of a register that lie in a half of it.
fn parts_of(kind: Kind, half: Half) -> &'static [Field] {
    match (kind, half) {
        (Kind::A, Half::Low) => &[Field::Addr],
        (Kind::A, Half::High) => &[Field::Limit, Field::Stride],
        (Kind::R, _) => &[Field::Whole],
        (Kind::C, Half::Low) => &[Field::Sign, Field::Zero],
        (Kind::C, Half::High) => &[Field::End],
        (Kind::Vc, Half::Low) => &[Field::Signs],
        (Kind::Vc, Half::High) => &[Field::Zeros],
    }
}

fn part_change(out: Stdout, kind: Kind, n: usize, part: Field, old: u32, new: u32) {
    if parts::differs(part, old, new) {
        text(out, b"  ");
        named(out, kind, n);
        parts::change(out, part, old, new);
        text(out, b"\n");
    }
}

fn vector_change(out: Stdout, n: usize, old: &[u8], new: &[u8]) {
    if old != new {
        text(out, b"  ");
        vector_named(out, n);
        bytes_change(out, old, new);
    }
}

// The bytes of the store have one line for all.
fn change(out: Stdout, before: &Noted, place: Place, old: u32, state: View<'_>) {
    match place {
        Place::Half(kind, n, half) => {
            let new = state.word(kind, n);
            for &part in parts_of(kind, half) {
                part_change(out, kind, n, part, old, new);
            }
        }
        Place::Vector(n) => vector_change(out, n, &before.vector, state.vector(n)),
        Place::Byte(_) => {}
    }
}

// ---- the store

// The first sixteen words, each a byte.
fn as_bytes(words: &[u32; 22]) -> [u8; 16] {
    from_fn(|i| words[i].to_le_bytes()[0])
}

// How many bytes of the store are written: a word is four, a row and a column are sixteen. They stand before all else that is written.
fn stored(places: &[Option<Place>; 22]) -> usize
    ensures { result ≤ 16 }
{
    match (places[3], places[15]) {
        (_, Some(Place::Byte(_))) => 16,
        (Some(Place::Byte(_)), _) => 4,
        _ => 0,
    }
}

// The index of a byte of the store, 0 of another place.
fn index_of(place: Option<Place>) -> usize {
    match place {
        Some(Place::Byte(i)) => i,
        _ => 0,
    }
}

// What an access of so many bytes is, by its first two addresses: those of a row lie in one row.
fn access_name(n: usize, first: usize, second: usize) -> &'static [u8] {
    if n == 4 {
        b"word "
    } else if first / 16 == second / 16 {
        b"row "
    } else {
        b"column "
    }
}

fn store_change(out: Stdout, before: &Noted, state: View<'_>) {
    let n = stored(&before.places);
    let old = as_bytes(&before.words);
    let new = as_bytes(&words_at(state, &before.places));
    if old[..n] == new[..n] {
        return;
    }
    let first = address_of(index_of(before.places[0]), before.code);
    let second = address_of(index_of(before.places[1]), before.code);
    text(out, b"  ");
    access(out, access_name(n, first, second), first, before.code);
    bytes_change(out, &old[..n], &new[..n]);
}

// The lines of what the step has changed.
pub fn changes(out: Stdout, before: &Noted, state: View<'_>) {
    store_change(out, before, state);
    for (&place, &old) in before.places.iter().zip(&before.words) {
        if let Some(place) = place {
            change(out, before, place, old, state);
        }
    }
}

#[cfg(test)]
mod tests {
    use super::*;

    // By the numbers of docs/PLACES.md: the store's first sixteen bytes, a register of each kind, and a number of no place. The first place, in $a31, is none of them.
    #[test]
    fn notes_more_than_a_list_holds(rt: HostRuntime) {
        let written = [
            144, 145, 146, 147, 148, 149, 150, 151, 152, 153, 154, 155, 156, 157, 158, 159, 7, 69,
            98, 131, 8336, 140,
        ];
        let mut state = State::zeros();
        state.ds[15] = 0x5a;
        state.set_word(Kind::A, 3, 0x8000_0003);
        state.set_word(Kind::A, 31, 0xc000_0000);
        state.set_word(Kind::R, 5, 0x1234_5678);
        state.set_word(Kind::C, 1, 0x0000_0400);
        state.set_word(Kind::Vc, 2, 0x0000_ffff);
        state.set_vector(2, [7; 16]);
        let before = note(&state, 63, &written);
        assert_eq!(rt; before.code, 3, "the code of $a31");
        assert_eq!(rt; before.vector, [7; 16], "$v2");
        let words = [
            (14, 0),
            (15, 0x5a),
            (16, 0x8000_0003),
            (17, 0x1234_5678),
            (18, 0),
            (19, 0x0400),
            (20, 0),
            (21, 0xffff),
        ];
        for (i, word) in words {
            assert_eq!(rt; before.words[i], word, "the word at place {i}");
        }
    }
}
