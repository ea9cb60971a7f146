// Loads and stores of the data store, over a lent array of 8,192 bytes, and the raw view of a bank.
#![tactic(auto)]

ghost use Rattle.std.specs.Prelude.{◌≡◌, [], ◌∷◌, ◌+◌, ◌/◌, ◌%◌, ◌<◌, ◌≤◌, length, drop};
ghost use Rattle.banks.specs.Bank.{at};
ghost use Rattle.banks.specs.Line.{addresses, start_of, stride_of};
ghost use Rattle.banks.specs.Inner.Access.{places};
ghost use Rattle.terms.specs.declared.Way.TheVariants.{Horizontal, Vertical, Scalar};
ghost use Rattle.store.specs.Inner.Steps.{upto, stepped, paired, in_bank};
ghost use Rattle.store.specs.Inner.Loads.{loaded, stored, word_of, bytes_of};
ghost use Rattle.store.specs.Store.{bank_view};

use std::simd::u8x16;
use terms::Way;

// ---- rows: a line's byte in each of the sixteen banks, from one bank on round

// In the order of the banks, twice, so that a row lies in one piece wherever it begins. (What is loaded, and words, go by index, each in a function of its own:
// with iterators or `from_fn` over the same places an access takes two to eight instructions more.)
fn banked(ds: &[u8; 8192], line: usize, w: &mut [u8; 32])
    requires { line < 512 }
    ensures { w.new ≡ loaded ds.now (upto (in_bank line) 32) }
{
    for k in 0..16 {
        let b = ds[512 * k + line];
        w[k] = b;
        w[16 + k] = b;
    }
}

fn part(w: &[u8; 32], first: usize) -> [u8; 16]
    requires { first ≤ 16 }
    ensures { result ≡ loaded w.now (upto (λ i. first + i) 16) }
{
    let mut x = [0u8; 16];
    for i in 0..16 {
        x[i] = w[first + i];
    }
    x
}

pub fn load_row(ds: &[u8; 8192], code: usize, addr: usize) -> [u8; 16]
    requires { code < 4 }
    ensures { result ≡ loaded ds.now (places code (addresses Horizontal code addr)) }
{
    let start = banks::start(Way::Horizontal, code, addr);
    let mut w = [0u8; 32];
    banked(ds, start / 16, &mut w);
    part(&w, banks::bank(code, start))
}

// Sixteen bytes by number.
const NUMBERS: [u8; 16] = [0, 1, 2, 3, 4, 5, 6, 7, 8, 9, 10, 11, 12, 13, 14, 15];

// Sixteen bytes turned round: byte k is the one that stood `by` places on. (One instruction picks all of them.)
fn turned(x: [u8; 16], by: usize) -> [u8; 16]
    requires { by ≤ 16 }
    ensures { result ≡ loaded x (upto (λ k. (by + k) % 16) 16) }
{
    let places = (u8x16::from_array(NUMBERS) + u8x16::splat(by as u8)) & u8x16::splat(15);
    u8x16::from_array(x).swizzle_dyn(places).to_array()
}

// Bank by bank, which is not the row's order: each byte has its own bank, so the order does not matter.
fn to_banks(ds: &mut [u8; 8192], line: usize, w: [u8; 16])
    requires { line < 512 }
    ensures { ds.new ≡ stored ds.old (upto (in_bank line) 16) w }
{
    for k in 0..16 {
        ds[512 * k + line] = w[k];
    }
}

pub fn store_row(ds: &mut [u8; 8192], code: usize, addr: usize, bytes: [u8; 16])
    requires { code < 4 }
    ensures { ds.new ≡ stored ds.old (places code (addresses Horizontal code addr)) bytes }
{
    let start = banks::start(Way::Horizontal, code, addr);
    let by = 16 - banks::bank(code, start);
    to_banks(ds, start / 16, turned(bytes, by));
}

// ---- columns: from the first place on by equal steps, round the store

// The first place of a column. Its bank is the low four bits of the address: k of the column's first address is a multiple of 16 under every code.
fn column_head(code: usize, addr: usize) -> usize
    requires { code < 4 }
    ensures { (result ≡ at code (start_of Vertical code addr)) × (result < 8192) }
{
    addr % 16 * 512 + banks::start(Way::Vertical, code, addr) / 16
}

// To the next bank, and the stride's lines down: the step of codes 1 to 3. By OR, since a sum would be taken apart, and added in two steps for each byte.
fn column_step(code: usize) -> usize
    requires { code < 4 }
    ensures { (result ≡ 512 + stride_of code / 16) × (result ≤ 520) }
{
    512 | banks::step(Way::Vertical, code) / 16
}

// Round the store, as a mask. From a table, since a mask that the compiler knows it takes of a copy of the sum, for each byte anew. (The pairs of code 0 go
// on by a constant step, where that costs nothing: their number only keeps the table from being one constant.)
const ROUND: [usize; 4] = [8190, 8191, 8191, 8191];

// Of `out`, a slice, since of a part of an array that is lent as an array a proof doesn't know what is written; so the compiler is told of its sixteen bytes.
fn gather(ds: &[u8; 8192], first: usize, step: usize, round: usize, out: &mut [u8])
    requires { (length out.old ≡ 16) × (first < 8192) × (step < 8192) × (round ≡ 8191) }
    ensures { out.new ≡ loaded ds.now (upto (stepped first step) 16) }
{
    let mut at = first;
    for byte in &mut out[..16] {
        *byte = ds[at];
        at = (at + step) & round;
    }
}

// Code 0: the halves of a cell lie side by side. By index: of what is written through `chunks_exact_mut` a proof knows no more than the length.
fn gather_pairs(ds: &[u8; 8192], first: usize, out: &mut [u8])
    requires { (length out.old ≡ 16) × (first < 8192) × (first % 2 ≡ 0) }
    ensures { out.new ≡ loaded ds.now (upto (paired first) 16) }
{
    let mut at = first;
    for i in 0..8 {
        let x = ds[at];
        let y = ds[at + 1];
        out[2 * i] = x;
        out[2 * i + 1] = y;
        at = (at + 514) % 8192;
    }
}

pub fn load_column(ds: &[u8; 8192], code: usize, addr: usize, out: &mut [u8])
    requires { (length out.old ≡ 16) × (code < 4) }
    ensures { out.new ≡ loaded ds.now (places code (addresses Vertical code addr)) }
{
    let first = column_head(code, addr);
    if code == 0 {
        gather_pairs(ds, first, out);
    } else {
        gather(ds, first, column_step(code), ROUND[code], out);
    }
}

fn scatter(ds: &mut [u8; 8192], first: usize, step: usize, round: usize, bytes: &[u8; 16])
    requires { (first < 8192) × (step < 8192) × (round ≡ 8191) }
    ensures { ds.new ≡ stored ds.old (upto (stepped first step) 16) bytes.now }
{
    let mut at = first;
    for byte in bytes {
        ds[at] = *byte;
        at = (at + step) & round;
    }
}

// By index, as in gather_pairs: cut in twos by `as_chunks` it would be no plainer, and the two would not read alike.
fn scatter_pairs(ds: &mut [u8; 8192], first: usize, bytes: &[u8; 16])
    requires { (first < 8192) × (first % 2 ≡ 0) }
    ensures { ds.new ≡ stored ds.old (upto (paired first) 16) bytes.now }
{
    let mut at = first;
    for i in 0..8 {
        let x = bytes[2 * i];
        let y = bytes[2 * i + 1];
        ds[at] = x;
        ds[at + 1] = y;
        at = (at + 514) % 8192;
    }
}

pub fn store_column(ds: &mut [u8; 8192], code: usize, addr: usize, bytes: &[u8; 16])
    requires { code < 4 }
    ensures { ds.new ≡ stored ds.old (places code (addresses Vertical code addr)) bytes.now }
{
    let first = column_head(code, addr);
    if code == 0 {
        scatter_pairs(ds, first, bytes);
    } else {
        scatter(ds, first, column_step(code), ROUND[code], bytes);
    }
}

// ---- words: a line's byte in each of four banks, from one bank on round

// A word from its bytes, low first.
#[tactic(auto, unfolding(crate::specs::Inner::Loads::word_of))]
pub fn joined(b0: u8, b1: u8, b2: u8, b3: u8) -> u32
    ensures { result ≡ word_of (b0 ∷ b1 ∷ b2 ∷ b3 ∷ []) }
{
    u32::from_le_bytes([b0, b1, b2, b3])
}

// The line is added after the banks have come round, so that the compiler adds it once, to the store's address.
fn word_from(ds: &[u8; 8192], line: usize, first: usize) -> u32
    requires { (line < 512) × (first < 16) }
    ensures { result ≡ word_of (loaded ds.now (upto (λ i. in_bank line (first + i)) 4)) }
{
    let at = 512 * first;
    joined(
        ds[line + at],
        ds[line + (at + 512) % 8192],
        ds[line + (at + 1024) % 8192],
        ds[line + (at + 1536) % 8192],
    )
}

pub fn load_word(ds: &[u8; 8192], code: usize, addr: usize) -> u32
    requires { code < 4 }
    ensures { result ≡ word_of (loaded ds.now (places code (addresses Scalar code addr))) }
{
    let start = banks::start(Way::Scalar, code, addr);
    word_from(ds, start / 16, banks::bank(code, start))
}

fn word_to(ds: &mut [u8; 8192], line: usize, first: usize, word: u32)
    requires { (line < 512) × (first < 16) }
    ensures { ds.new ≡ stored ds.old (upto (λ i. in_bank line (first + i)) 4) (bytes_of word) }
{
    let at = 512 * first;
    let [b0, b1, b2, b3] = word.to_le_bytes();
    ds[line + at] = b0;
    ds[line + (at + 512) % 8192] = b1;
    ds[line + (at + 1024) % 8192] = b2;
    ds[line + (at + 1536) % 8192] = b3;
}

pub fn store_word(ds: &mut [u8; 8192], code: usize, addr: usize, word: u32)
    requires { code < 4 }
    ensures { ds.new ≡ stored ds.old (places code (addresses Scalar code addr)) (bytes_of word) }
{
    let start = banks::start(Way::Scalar, code, addr);
    word_to(ds, start / 16, banks::bank(code, start), word);
}

// The raw view: a bank's 512 bytes, as a part of the lent store.
pub fn bank_view(store: &[u8], bank: usize) -> &[u8]
    ensures { result.now ≡ bank_view store.now bank }
{
    if store.len() != 8192 {
        return &store[..0];
    }
    if bank > 15 {
        return &store[..0];
    }
    let from = bank * 512;
    &store[from..from + 512]
}
