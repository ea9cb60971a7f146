// The word that a text is the line of: an opcode of the text's name, the fields that the texts after it would be, and then the line of that word compared
// with the text. So only what is a line is taken, whatever the text is.
ghost use Rattle.std.specs.Prelude.{◌≡◌, ℕ, ◌<◌, ◌≤◌, length, drop, T, MatchOption};
ghost use Rattle.names.specs.Table.{documented};
ghost use Rattle.names.specs.Calls.{named_by};
ghost use Rattle.names.specs.Inner.Scan.{split, operand_texts, candidate};
ghost use Rattle.names.specs.Inner.Code.{bears, tried_at, word_in, NoneNamed};

use crate::line::spelt;
use crate::scan::next;
use crate::table::{form_of, head_of, name_of, spaced};
use crate::take::gather_all;

// Where the text is looked at for operands: behind the name, or behind the text after it, where that belongs to the name.
fn start(text: &[u8], op: u32) -> usize
    requires { op < 256 }
    ensures { (result ≤ length text.now) × ((split (drop result text.now)).1 ≡ operand_texts op text.now) }
{
    if spaced(name_of(op)) {
        return next(text, 0);
    }
    0
}

// The word that the text would be, were it a line of this opcode.
fn candidate(text: &[u8], op: u32) -> u32
    requires { (128 ≤ op) × (op < 224) }
    ensures { result ≡ candidate op text.now }
{
    let at = start(text, op);
    gather_all(text, at, form_of(op), op * 16777216)
}

// That word, if the text is its line.
fn tried(text: &[u8], op: u32) -> Option<u32>
    requires { (128 ≤ op) × (op < 224) × T (documented op) }
    ensures { MatchOption result (tried_at op text.now ≡ 0) (λ w. (w ≡ tried_at op text.now) × (w ≡ 0 → ⊥)) }
{
    let w = candidate(text, op);
    if spelt(w).bytes() == text {
        return Some(w);
    }
    None
}

// The word that the text is read as; h is its name, and the first opcode of this name is given.
pub fn found(text: &[u8], h: u64, from: u32) -> Option<u32>
    requires { (h ≡ 0 → ⊥) × ((k : ℕ) → k < 256 → named_by text.now k ≡ bears h k) × (128 ≤ from) × (from ≤ 224) × NoneNamed h from }
    ensures { MatchOption result (word_in text.now ≡ 0) (λ w. (w ≡ word_in text.now) × (w ≡ 0 → ⊥)) }
{
    for op in from..224 {
        if head_of(op) != h {
            continue;
        }
        if let Some(w) = tried(text, op) {
            return Some(w);
        }
    }
    None
}
