// A text shown as far as there is room for it: what stands in the input may be long, and may have bytes that are no letters.

fn shown(b: u8) -> u8 {
    match b {
        0x20..=0x7e => b,
        _ => b'?',
    }
}

// Writes the text's first bytes, at most so many and never more than 128, and `..` behind them where it is longer.
pub fn quote(to: &impl Print, text: &[u8], most: usize) {
    let mut out = [0u8; 128];
    for (place, &b) in out.iter_mut().zip(text) {
        *place = shown(b);
    }
    let n = text.len().min(most).min(out.len());
    let _ = to.write_all(&out[..n]);
    if n < text.len() {
        let _ = to.write_all(b"..");
    }
}
