// One instruction: its line, its word, its fields, the places that it touches, and the addresses of its access. docs/LISTING.md, "explain".
use crate::calls;
use crate::calls::Places;
use crate::explain_fields::fields;
use orders::word::spell;
use orders::{Kind, Triple};
use shown::cells::address_of;
use shown::figures::line;
use shown::places::{Place, byte_of, in_store, place_of};
use shown::state::State;
use shown::{phrases, registers};
use std::io::Stdout;
use terms::{End, Refusal};
use text::print::text;

// The word of the line of a word, if it has one.
fn normal(word: u32) -> Option<u32> {
    let mut out = [0; 64];
    let n = spell(word, &mut out).ok()?;
    Some(names::read_line(&out[..n]).word)
}

// What is said of a word that has a line.
fn meaning(out: Stdout, word: u32) {
    if let Some(plain) = normal(word) {
        if plain != word {
            let _ = println!(out; "normal 0x{plain:08x}");
        }
    }
    fields(out, word);
}

// Places side by side: the bytes of the store, which stand next to each other, or one other place.
fn group_text(out: Stdout, group: &[u32]) {
    match group {
        [place, ..] if !in_store(*place) => phrases::place(out, *place),
        _ => {
            let _ = print!(out; "{} bytes of the store", group.len());
        }
    }
}

fn place_line(out: Stdout, name: &str, places: &[u32]) {
    let _ = print!(out; "{name}");
    if places.is_empty() {
        text(out, b" nothing");
    }
    let groups = places.chunk_by(|&p, &q| in_store(p) && in_store(q));
    for (i, group) in groups.enumerate() {
        if i > 0 {
            text(out, b",");
        }
        text(out, b" ");
        group_text(out, group);
    }
    text(out, b"\n");
}

// The addresses of the access, under the stride code of its base register.
fn addresses(out: Stdout, places: &[u32; 22], code: usize) {
    for index in places.iter().filter_map(|&p| byte_of(p)) {
        let _ = print!(out; "0x{:04x}", address_of(index, code));
        phrases::store_byte(out, b" bank ", index, b" low\n", b" high\n");
    }
}

// The base register of a load or store: the first of its places is a half of it.
fn base_register(places: &Places) -> Option<usize> {
    match place_of(places.all[0]) {
        Some(Place::Half(Kind::A, n, _)) => Some(n),
        _ => None,
    }
}

// The places of a step, and how many cells it enters, in a state of zeros but for its base register. The places of a step that has none do not depend on what a register holds.
#[inline(never)]
fn done(t: Triple, base: u32, register: Option<usize>) -> (Places, u64) {
    let mut state = State::zeros();
    if let Some(n) = register {
        state.set_word(Kind::A, n, base);
    }
    let places = calls::places_of(&state, t);
    (places, calls::step(&mut state, t).counts.accesses)
}

// What a step touches that is not refused.
fn touched(out: Stdout, t: Triple, base: u32, register: Option<usize>) {
    let (places, cells) = done(t, base, register);
    place_line(out, "reads", places.read());
    place_line(out, "writes", places.written());
    line(out, b"cells ", cells);
    if places.all.iter().any(|&p| in_store(p)) {
        registers::word(out, Kind::A, register.unwrap_or(0), base);
        addresses(out, &places.all, (base >> 30) as usize);
    }
}

// Explains a step whose base register holds this word, and answers the status: 1 where the step is refused.
#[inline(never)]
pub fn explain(out: Stdout, t: Triple, base: u32) -> u32 {
    phrases::step_text(out, t);
    let _ = println!(out; "\nword 0x{:08x}", t.word);
    let (places, _) = done(t, 0, None);
    match places.end {
        End::Refused(Refusal::Foreign | Refusal::Undocumented) => {}
        _ => meaning(out, t.word),
    }
    if places.end != End::Done {
        phrases::refused(out, places.end);
        text(out, b"\n");
        return 1;
    }
    touched(out, t, base, base_register(&places));
    0
}
