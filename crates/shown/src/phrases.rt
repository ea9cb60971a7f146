// Places, refusals, answers and steps in words.
use crate::places::{Place, place_of};
use crate::registers::named;
use orders::word::spell;
use orders::{Kind, Triple};
use std::io::Stdout;
use terms::{End, Half, Refusal};
use text::print::text;

// $r has no halves.
fn half(kind: Kind, half: Half) -> &'static str {
    match (kind, half) {
        (Kind::A, Half::Low) => " low",
        (Kind::A, Half::High) => " high",
        (Kind::R, _) => "",
        (Kind::C, Half::Low) => " sign and zero",
        (Kind::C, Half::High) => " end",
        (Kind::Vc, Half::Low) => " signs",
        (Kind::Vc, Half::High) => " zeros",
    }
}

// A byte of the store by its index: its bank behind the name, its cell, and which half of that it is.
pub fn store_byte(out: Stdout, name: &[u8], index: usize, low: &[u8], high: &[u8]) {
    text(out, name);
    let _ = print!(out; "{} cell {}", index / 512, index % 512 / 2);
    text(out, if index % 2 == 0 { low } else { high });
}

// A place by its number.
pub fn place(out: Stdout, number: u32) {
    match place_of(number) {
        Some(Place::Half(kind, n, which)) => {
            named(out, kind, n);
            let _ = print!(out; "{}", half(kind, which));
        }
        Some(Place::Vector(n)) => {
            let _ = print!(out; "$v{n}");
        }
        Some(Place::Byte(i)) => {
            store_byte(out, b"store bank ", i, b" low byte", b" high byte");
        }
        None => {}
    }
}

// Of a run no other answers come; Ragged only of a list in parts.
fn reason(end: End) -> &'static str {
    match end {
        End::Done => "done",
        End::Refused(Refusal::Foreign) => "opcode below 0x80 or above 0xdf",
        End::Refused(Refusal::Undocumented) => "opcode not documented",
        End::Refused(Refusal::SideIndex) => "side index above 31",
        End::Refused(Refusal::SideMask) => "side mask word above 0x1ffff",
        End::Ragged => "bytes left over that make no whole triple",
        End::Spent => "budget spent, the list is not finished",
        _ => "another reason",
    }
}

// By its number, or by what has one.
pub fn refused<N: Into<u32>>(out: Stdout, answer: N) {
    let n: u32 = answer.into();
    let _ = print!(out; "refused, {n} ({})", reason(End::from(n)));
}

// The line of the answer.
pub fn answer<N: Into<u32>>(out: Stdout, answer: N) {
    let n: u32 = answer.into();
    let _ = println!(out; "answer {n} # {}", reason(End::from(n)));
}

// The word's line, without its line feed; a word that has none in eight digits.
fn name(out: Stdout, word: u32) {
    let mut room = [0; 64];
    match spell(word, &mut room) {
        Ok(n) => {
            let line = &room[..n];
            text(out, line.strip_suffix(b"\n").unwrap_or(line));
        }
        Err(_) => {
            let _ = print!(out; "{word:08x}");
        }
    }
}

// A step, with its side inputs where they are not those that a step without `@` has.
pub fn step_text(out: Stdout, t: Triple) {
    name(out, t.word);
    if t.mask == 0 && t.side == t.word / 512 % 32 {
        return;
    }
    let _ = print!(out; " @ {}", t.side);
    if t.mask != 0 {
        let _ = print!(out; " {:#x}", t.mask);
    }
}
