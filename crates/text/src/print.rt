// What a program writes to standard output or standard error: numbers in lower-case hexadecimal or in decimal, and the line's other bytes. A write that fails is let
// go, and the program goes on.
use crate::quote;

pub fn text(out: impl Print + Copy, bytes: &[u8]) {
    let _ = out.write_all(bytes);
}

// A text of the input, of which no more is shown than so many bytes.
pub fn quote(out: impl Print + Copy, bytes: &[u8], most: usize) {
    quote::quote(&out, bytes, most);
}

// In hexadecimal, with zeros in front up to so many digits, and never more than 16.
pub fn hex(out: impl Print + Copy, n: u64, digits: usize) {
    let width = digits.min(16);
    let _ = print!(out; "{n:0width$x}");
}

// In hexadecimal, without leading zeros.
pub fn number(out: impl Print + Copy, n: u64) {
    let _ = print!(out; "{n:x}");
}

pub fn decimal(out: impl Print + Copy, n: u64) {
    let _ = print!(out; "{n}");
}

// A count with the name of what is counted.
pub fn counted(out: impl Print + Copy, n: u64, name: &[u8]) {
    decimal(out, n);
    text(out, name);
    if n != 1 {
        text(out, b"s");
    }
}
