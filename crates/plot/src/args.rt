// What the arguments say, if it is what is taken: a word, a stride code, a way, an address.
use crate::stride::Stride;
use terms::Way;
use text::args::whole;
use text::number;

// Whether argument i is a word of up to ten bytes.
pub fn is(rt: HostRuntime, i: usize, word: &[u8]) -> bool {
    let mut arg = [0u8; 10];
    let n = whole(rt, i, &mut arg);
    &arg[..n] == word
}

// A single digit below 4.
pub fn stride(rt: HostRuntime, i: usize) -> Option<Stride> {
    let mut digit = [0u8; 1];
    if whole(rt, i, &mut digit) != 1 {
        return None;
    }
    let code = (digit[0] as char).to_digit(4)?;
    Some(Stride {
        code: code as usize,
    })
}

pub fn way(rt: HostRuntime, i: usize) -> Option<Way> {
    let mut arg = [0u8; 10];
    let n = whole(rt, i, &mut arg);
    match &arg[..n] {
        b"horizontal" => Some(Way::Horizontal),
        b"vertical" => Some(Way::Vertical),
        b"scalar" => Some(Way::Scalar),
        _ => None,
    }
}

// One to four hexadecimal digits, with or without 0x, below 0x2000.
pub fn address(rt: HostRuntime, i: usize) -> Option<usize> {
    let mut arg = [0u8; 6];
    let n = whole(rt, i, &mut arg);
    let text = &arg[..n];
    if text.strip_prefix(b"0x").unwrap_or(text).len() > 4 {
        return None;
    }
    let address = number::hex(text)? as usize;
    if address < 8192 { Some(address) } else { None }
}
