// The bytes of a part: words out of them, and twelve of them where a part begins and where it is left.
ghost use Rattle.std.specs.Prelude.{◌≡◌, ◌++◌, ◌+◌, ◌*◌, ◌<◌, ◌≤◌, length, take, drop};
ghost use Rattle.std.proofs.Math.Seq.{paste};
ghost use Rattle.model.specs.Parts.{first_words};
ghost use Rattle.parts.specs.Run.{twelve};
ghost use Rattle.parts.specs.Inner.Feed.{word_at};

// The word of the four bytes from `at` on, low byte first.
fn word(bytes: &[u8], at: usize) -> u32
    requires { at + 3 < length bytes.now }
    ensures { result ≡ word_at bytes.now at }
{
    let b0 = bytes[at];
    let b1 = bytes[at + 1];
    let b2 = bytes[at + 2];
    let b3 = bytes[at + 3];
    store::joined(b0, b1, b2, b3)
}

// The n words of the bytes from `at` on, to the beginning of a buffer.
pub fn fill(words: &mut [u32; 480], bytes: &[u8], at: usize, n: usize)
    requires { (n ≤ 480) × (at + n * 4 ≤ length bytes.now) }
    ensures { words.new ≡ first_words n (drop at bytes.now) ++ drop n words.old }
{
    for k in 0..n {
        words[k] = word(bytes, at + 4 * k);
    }
}

// The three words of a triple's bytes.
pub fn triple(bytes: [u8; 12]) -> [u32; 3]
    ensures { result ≡ first_words 3 bytes }
{
    [word(&bytes, 0), word(&bytes, 4), word(&bytes, 8)]
}

// The first n bytes, put down in twelve from `at` on. (By index: the compiler makes one copy of memory of it, and none of no bytes; `copy_from_slice` copies
// those too, which a short part pays for.)
fn put(to: [u8; 12], at: usize, bytes: &[u8], n: usize) -> [u8; 12]
    requires { (at + n ≤ 12) × (n ≤ length bytes.now) }
    ensures { result ≡ paste to at bytes.now n }
{
    let mut out = to;
    for i in 0..n {
        out[at + i] = bytes[i];
    }
    out
}

// The first twelve of those that are left over and those that come after them; 0 behind them. (That as many are left over as the count says is known
// here, where the array is handed over by itself.)
pub fn twelve(held: [u8; 12], count: usize, bytes: &[u8]) -> [u8; 12]
    requires { count ≤ 12 }
    ensures { (result ≡ twelve (take count held ++ bytes.now)) × (length (take count held) ≡ count) }
{
    let left = put([0u8; 12], 0, &held, count);
    let n = bytes.len().min(12 - count);
    put(left, count, bytes, n)
}
