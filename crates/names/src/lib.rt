// The line of an instruction word, and the word of a line.
#![tactic(auto)]

mod find; // find.rt: the word that a text is the line of
mod line; // line.rt: a line in the making
mod pack; // pack.rt: short texts as one number
mod scan; // scan.rt: where the texts of a line begin, and what numbers they are
mod show; // show.rt: the text of an operand
mod table; // table.rt: names and operands by opcode
mod take; // take.rt: the field that a text would be

ghost use Rattle.std.specs.Prelude.{◌≡◌};
ghost use Rattle.names.specs.Calls.{written, write_of, read, read_of};

use crate::find::found;
use crate::line::spelt;
use crate::scan::{heading, one_feed};
pub use crate::table::form_of; // for who shows the fields that a line comes from
use crate::table::{first_named, name_of};
use terms::{End, Refusal};

// What writing hands back: why it stopped, and the line's length, 0 where nothing is written. No Result: C is told the length whatever the answer is.
#[derive(Clone, Copy)]
pub struct Written {
    pub end: End,
    pub length: u32,
}

// What reading hands back: why it stopped, and the word, 0 where none is read. No Result, for the same reason: C is told the word.
#[derive(Clone, Copy)]
pub struct Read {
    pub end: End,
    pub word: u32,
}

// Where the reader is: the word so far, the place in the text, and how many texts come after it.
#[derive(Clone, Copy)]
pub struct Place {
    pub word: u32,
    pub at: usize,
    pub left: usize,
}

fn unwritten(end: End) -> Written
    ensures { result ≡ record { end = end; length = 0 } }
{
    Written { end, length: 0 }
}

// The line of a word into the output, or why not: what stands behind the line stays.
pub fn write_line(word: u32, out: &mut [u8]) -> Written
    ensures { written result out.new ≡ write_of word out.old }
{
    let op = word / 16777216;
    if (op < 0x80) | (0xdf < op) {
        return unwritten(End::Refused(Refusal::Foreign));
    }
    if name_of(op) == 0 {
        return unwritten(End::Refused(Refusal::Undocumented));
    }
    let line = spelt(word);
    let n = line.bytes().len();
    if out.len() < n {
        return unwritten(End::Short);
    }
    out[..n].copy_from_slice(line.bytes());
    Written {
        end: End::Done,
        length: n as u32,
    }
}

fn unread(end: End) -> Read
    ensures { result ≡ record { end = end; word = 0 } }
{
    Read { end, word: 0 }
}

// The word of a line, in its normal form, or why there is none.
pub fn read_line(text: &[u8]) -> Read
    ensures { read result ≡ read_of text.now }
{
    if !one_feed(text) {
        return unread(End::Unended);
    }
    let h = heading(text);
    let Some(op) = first_named(h) else {
        return unread(End::Unnamed);
    };
    let Some(w) = found(text, h, op) else {
        return unread(End::Amiss);
    };
    Read {
        end: End::Done,
        word: w,
    }
}
