// Texts packed into one number: their bytes, the first one highest, behind a 1. So a short text is one value, and it is known where it begins.
ghost use Rattle.std.specs.Prelude.{◌≡◌, ◌+◌, ◌*◌, ◌<◌, ◌^◌};
ghost use Rattle.names.specs.Line.{digit, numeral};
ghost use Rattle.names.specs.Inner.Code.{packed, lead_of, last_hex};

// p, and a byte behind it
pub fn behind(p: u64, b: u8) -> u64
    requires { p < 2 ^ 56 }
    ensures { (result ≡ p * 256 + b) × (b < 256) }
{
    p * 256 + u64::from(b)
}

fn digit_of(d: u32) -> u64
    requires { d < 16 }
    ensures { (result ≡ digit d) × (result < 256) }
{
    if d < 10 {
        return u64::from(48 + d);
    }
    u64::from(87 + d)
}

// p, and the last digit of m behind it; not so where m is 0, which would be a leading zero.
fn lead(p: u64, m: u32) -> u64
    requires { p < 2 ^ 56 }
    ensures { (result ≡ lead_of p m) × (result < (p + 1) * 256) }
{
    if m == 0 {
        return p;
    }
    p * 256 + digit_of(m % 16)
}

// p, and the decimal digits of n behind it
pub fn decimal(p: u64, n: u32) -> u64
    requires { (p < 2 ^ 40) × (n < 32) }
    ensures { result ≡ packed p (numeral 4 10 n) }
{
    lead(p, n / 10) * 256 + digit_of(n % 10)
}

// p, and the last three hexadecimal digits of n behind it, without leading zeros
pub fn last_hex(p: u64, n: u32) -> u64
    requires { p < 2 ^ 40 }
    ensures { result ≡ last_hex p n }
{
    lead(lead(p, n / 256), n / 16) * 256 + digit_of(n % 16)
}

// p, and the hexadecimal digits of n behind it
pub fn hex(p: u64, n: u32) -> u64
    requires { (p < 2 ^ 32) × (n < 65536) }
    ensures { result ≡ packed p (numeral 4 16 n) }
{
    last_hex(lead(p, n / 4096), n)
}
