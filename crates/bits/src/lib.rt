// Bit operations by their truth table, at the widths of a component and of an address register.
#![tactic(auto)]

ghost use Rattle.std.specs.Prelude.{◌≡◌, cond, ◌<◌};
ghost use Rattle.bits.specs.Bitop.{bit, bitop};

// Bit k of the table.
fn bit_of(k: u8, op: u8) -> bool
    requires { k < 8 }
    ensures { result ≡ bit k op }
{
    (op >> k) & 1 == 1
}

fn gated<T: Copy>(t: bool, m: T, zero: T) -> T
    ensures { result ≡ cond t m zero }
{
    if t { m } else { zero }
}

pub fn bitop8(op: u8, a: u8, b: u8) -> u8
    ensures { result ≡ bitop 8 op a b }
{
    let neither = gated(bit_of(0, op), !(a | b), 0);
    let first = gated(bit_of(1, op), a & !b, 0);
    let second = gated(bit_of(2, op), b & !a, 0);
    let both = gated(bit_of(3, op), a & b, 0);
    neither | first | second | both
}

pub fn bitop32(op: u8, a: u32, b: u32) -> u32
    ensures { result ≡ bitop 32 op a b }
{
    let neither = gated(bit_of(0, op), !(a | b), 0);
    let first = gated(bit_of(1, op), a & !b, 0);
    let second = gated(bit_of(2, op), b & !a, 0);
    let both = gated(bit_of(3, op), a & b, 0);
    neither | first | second | both
}
