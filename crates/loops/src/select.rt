// The words that two sources make.
ghost use Rattle.std.specs.Prelude.{◌≡◌, ◌<◌, ◌-◌, if◌then◌else◌, nat_lt};
ghost use Rattle.lanes.specs.Lanes.{listed, pair_at};

use std::array;

fn pair(b: [u8; 16], i: usize) -> u16
    requires { i < 8 }
    ensures { result ≡ pair_at b i }
{
    u16::from_le_bytes([b[2 * i], b[2 * i + 1]])
}

fn word(b: [u8; 16], c: [u8; 16], i: usize) -> u16
    requires { i < 16 }
    ensures { result ≡ (if nat_lt i 8 then pair_at b i else pair_at c (i - 8)) }
{
    if i < 8 { pair(b, i) } else { pair(c, i - 8) }
}

// Eight words stand in b and eight in c.
pub fn words(b: [u8; 16], c: [u8; 16]) -> [u16; 16]
    ensures { result ≡ listed 16 (λ i. if nat_lt i 8 then pair_at b i else pair_at c (i - 8)) }
{
    array::from_fn(|i| word(b, c, i))
}
