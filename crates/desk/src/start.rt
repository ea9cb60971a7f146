// The start of a run: what the dot lines of a page set in a state. The page has no fault.
ghost use Rattle.std.specs.Prelude.{◌<◌};

use crate::expected::dotted;
use crate::lines::clean;
use orders::bytes::Bytes;
use orders::read::{sets, start};
use orders::{Order, Part};
use shown::state::State;
use text::find::feed;

fn set_part(s: &mut State, p: Part) {
    let word = s.word(p.kind, p.n) & !p.mask | p.value;
    s.set_word(p.kind, p.n, word);
}

// Where in the store the byte at an address lies. The remainders change nothing: they spare the caller a proof of the bounds.
fn place(code: usize, addr: usize) -> usize
    ensures { result < 8192 }
{
    let at = addr % 8192;
    banks::bank(code % 4, at) % 16 * 512 + at / 16
}

// Bytes go to the addresses from the first on.
fn put(s: &mut State, code: usize, first: usize, bytes: Bytes<'_>) {
    for (i, b) in bytes.enumerate() {
        s.ds[place(code, first.wrapping_add(i))] = b;
    }
}

// The sixteen bytes of a row: its banks go round from that of its first address on, and each byte lies at the row's number.
fn fill_row(s: &mut State, code: usize, row: usize)
    requires { row < 512 }
{
    let first = banks::bank(code % 4, 16 * row) % 16;
    for i in 0..16 {
        s.ds[(first + i) % 16 * 512 + row] = ((16 * row + i) % 256) as u8;
    }
}

fn fill_address(s: &mut State, code: usize) {
    for row in 0..512 {
        fill_row(s, code, row);
    }
}

// The byte at an index holds the number of its bank. (In place: a store that is made first is copied too.)
fn fill_bank(s: &mut State) {
    for (i, b) in s.ds.iter_mut().enumerate() {
        *b = (i / 512) as u8;
    }
}

// Does what a line orders, if it sets the start.
fn one(s: &mut State, line: &[u8]) {
    if !sets(line) {
        return;
    }
    let Ok(Some(order)) = start(line) else {
        return;
    };
    match order {
        Order::Set(p) => set_part(s, p),
        Order::SetVector(n, bytes) => s.set_vector(n, bytes),
        Order::Bytes(code, first, bytes) => put(s, code, first, bytes),
        Order::FillBank => fill_bank(s),
        Order::FillAddress(code) => fill_address(s, code),
        Order::FillByte(b) => s.ds = [b; 8192],
        _ => {}
    }
}

// The state that the lines of a page order: what they do not set is 0.
#[inline(never)]
pub fn set(text: &[u8]) -> State {
    let mut s = State::zeros();
    let mut room = [0; 65536];
    for raw in text.split(|&b| feed(b)) {
        let line = clean(raw, &mut room);
        if dotted(line) {
            one(&mut s, line);
        }
    }
    s
}
