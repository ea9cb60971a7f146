// Where the texts of a line begin, how many there are, and what number one of them is. Any bytes will do: what is no number gives some number.
ghost use Rattle.std.specs.Prelude.{◌≡◌, [], cond, ℕ, ◌+◌, ◌-◌, ◌*◌, ◌%◌, ◌<◌, ◌≤◌, eqb, length, drop, get_or};
ghost use Rattle.names.specs.Calls.{one_feed, named_by};
ghost use Rattle.names.specs.Inner.Code.{bears};
ghost use Rattle.names.specs.Inner.Scan.{digit_of, digits_of, split};

use crate::pack::behind;

pub fn one_feed(text: &[u8]) -> bool
    ensures { result ≡ one_feed text.now }
{
    for (i, &b) in text.iter().enumerate() {
        if b == b'\n' {
            return i + 1 == text.len();
        }
    }
    false
}

// The place after the next space; the end where there is none before the line feed.
pub fn next(text: &[u8], at: usize) -> usize
    requires { at ≤ length text.now }
    ensures { (result ≤ length text.now) × (split (drop result text.now) ≡ (get_or (split (drop at text.now)).1 0 [], drop 1 (split (drop at text.now)).1)) }
{
    for (i, &b) in text[at..].iter().enumerate() {
        if b == b'\n' {
            return text.len();
        }
        if b == b' ' {
            return at + i + 1;
        }
    }
    text.len()
}

// How many texts come after spaces.
pub fn count(text: &[u8], at: usize) -> usize
    requires { at ≤ length text.now }
    ensures { result ≡ length (split (drop at text.now)).1 }
{
    let mut n: usize = 0;
    for &b in &text[at..] {
        if b == b'\n' {
            return n;
        }
        n += usize::from(b == b' ');
    }
    n
}

fn digit_value(c: u8) -> u32
    ensures { (result ≡ digit_of c) × (result < 256) }
{
    // what is worth 0: `0` itself, and the byte that stands ten before `a`
    let zero = if c < 58 { 48 } else { 87 };
    u32::from(c.saturating_sub(zero))
}

// The digits of the text from a place on, without its first bytes.
pub fn digits(text: &[u8], at: usize, skip: usize, base: u32) -> u32
    requires { (at ≤ length text.now) × (base ≤ 16) }
    ensures { (result ≡ digits_of base 0 (drop skip (split (drop at text.now)).0)) × (result < 65536) }
{
    let mut n: u32 = 0;
    let mut k = skip;
    for &b in &text[at..] {
        if b == b'\n' {
            return n;
        }
        if b == b' ' {
            return n;
        }
        n = step(n, k, base, b);
        k = k.saturating_sub(1);
    }
    n
}

// One byte more: nothing while there is something to skip.
fn step(n: u32, k: usize, base: u32, b: u8) -> u32
    requires { (n < 65536) × (base ≤ 16) }
    ensures { (result ≡ cond (eqb k 0) ((n * base + digit_of b) % 65536) n) × (result < 65536) }
{
    if k == 0 {
        return (n * base + digit_value(b)) % 65536;
    }
    n
}

pub fn byte_at(text: &[u8], at: usize) -> u8
    ensures { result ≡ get_or text.now at 0 }
{
    text.get(at).copied().unwrap_or(0)
}

// The text's name, packed: 2, which is no text, where it has more than the seven bytes that fit, and so is no opcode's.
pub fn heading(text: &[u8]) -> u64
    ensures { ((op : ℕ) → op < 256 → named_by text.now op ≡ bears result op) × (result ≡ 0 → ⊥) }
{
    let mut p: u64 = 1;
    for (i, &b) in text.iter().enumerate() {
        if b == b'\n' {
            return p;
        }
        if b == b' ' {
            return p;
        }
        if 6 < i {
            return 2;
        }
        p = behind(p, b);
    }
    p
}
