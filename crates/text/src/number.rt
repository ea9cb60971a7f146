// What number a text is: docs/LISTING.md and docs/NAMES.md have the forms.
ghost use Rattle.std.specs.Prelude.{◌≤◌};

// The number whose digits are all of the text: at least one, no more than so many, and below 2^32.
fn digits(text: &[u8], radix: u32, most: usize) -> Option<u32>
    requires { (2 ≤ radix) × (radix ≤ 36) }
{
    if text.is_empty() || text.len() > most {
        return None;
    }
    text.iter().try_fold(0u32, |n, &b| {
        let digit = (b as char).to_digit(radix)?;
        n.checked_mul(radix)?.checked_add(digit)
    })
}

// The text without the 0x that it may begin with.
fn behind_prefix(text: &[u8]) -> &[u8] {
    text.strip_prefix(b"0x").unwrap_or(text)
}

// 1 to 8 hexadecimal digits, with or without 0x.
pub fn hex(text: &[u8]) -> Option<u32> {
    digits(behind_prefix(text), 16, 8)
}

// The same with no fewer and no more digits than so many.
fn hex_of(text: &[u8], count: usize) -> Option<u32> {
    if behind_prefix(text).len() != count {
        return None;
    }
    hex(text)
}

// 0x and 1 to 8 hexadecimal digits, or 1 to 10 decimal digits; below 2^32.
pub fn number(text: &[u8]) -> Option<u32> {
    match text.strip_prefix(b"0x") {
        Some(rest) => digits(rest, 16, 8),
        None => digits(text, 10, 10),
    }
}

// Two hexadecimal digits, with or without 0x.
pub fn byte(text: &[u8]) -> Option<u8> {
    u8::try_from(hex_of(text, 2)?).ok()
}

// Eight hexadecimal digits, with or without 0x.
pub fn word(text: &[u8]) -> Option<u32> {
    hex_of(text, 8)
}
