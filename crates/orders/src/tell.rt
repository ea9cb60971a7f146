// What is said of a line that is not as it should be.
ghost use Rattle.std.specs.Prelude.{IfSome};
ghost use Rattle.text.specs.Counts.{IsPrefixLen};

use crate::cursor::text;
use crate::word::spell;
use crate::{Fault, Wanted};
use std::io::Stderr;
use text::find::{What, find};
use text::say::{quote, say};

// Puts the line of the opcode's word whose other bits are 0 at the start of out, and answers its length without line feed, if it has the name: an opcode
// that is not documented has the empty one. (No heap, as in word.rt.)
fn example(op: u32, name: &[u8], out: &mut [u8]) -> Option<usize>
    ensures { IfSome result (λ n. IsPrefixLen n out.new) }
{
    let n = spell(op << 24, out).unwrap_or(0);
    let end = find(&out[..n], 0, What::Feed);
    (text(&out[..end], 0) == name).then_some(end)
}

// The line of each opcode that has the name.
pub fn examples(err: Stderr, name: &[u8]) {
    let mut out = [0u8; 64];
    let mut before: &[u8] = b"as in: ";
    for op in 0x80..0xe0 {
        if let Some(n) = example(op, name, &mut out) {
            say(err, before);
            say(err, &out[..n]);
            before = b" or: ";
        }
    }
}

// Writes the text at fault and what was expected to standard error.
pub fn tell(err: Stderr, line: &[u8], f: Fault) {
    quote(err, line.get(f.from..f.to).unwrap_or(&[]), 64);
    say(err, b": expected ");
    if f.wanted == Wanted::Operands {
        examples(err, text(line, f.from));
    } else {
        let _ = print!(err; "{}", f.wanted);
    }
    say(err, b"\n");
}
