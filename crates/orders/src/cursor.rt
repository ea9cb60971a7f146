// A line is gone over by its texts: a cursor is the place of one of them, or the line's end, where there is no text.
ghost use Rattle.std.specs.Prelude.{◌≡◌, ◌==◌, ◌+◌, ◌-◌, ◌≤◌, length, min};
ghost use Rattle.std.specs.Iterator.{at_most};

use crate::{Fault, Wanted};
use text::find::{What, find};

#[derive(Clone, Copy)]
pub(crate) struct Cursor<'a> {
    pub(crate) line: &'a [u8],
    at: usize,
    ghost within: { at ≤ length line.now },
}

impl<'a> Cursor<'a> {
    // The text that begins at a place; the line's end where none does.
    pub(crate) fn new(line: &'a [u8], at: usize) -> Cursor<'a>
        ensures same_line { result.line.now ≡ line.now }
        ensures place { result.at ≡ min at (length line.now) }
    {
        Cursor {
            line,
            at: at.min(line.len()),
        }
    }

    // The line's first text.
    pub(crate) fn first(line: &'a [u8]) -> Cursor<'a>
        ensures { result.line.now ≡ line.now }
    {
        Cursor::new(line, 0)
    }

    pub(crate) fn is_end(self) -> bool
        ensures { result ≡ (self.entry.at == length self.entry.line.now) }
    {
        self.at == self.line.len()
    }

    // The place behind the text.
    fn behind(self) -> usize
        ensures { (self.entry.at ≤ result) × (result ≤ length self.entry.line.now) }
    {
        find(self.line, self.at, What::Gap)
    }

    // The text, of no bytes at the line's end.
    pub(crate) fn text(self) -> &'a [u8] {
        &self.line[self.at..self.behind()]
    }

    pub(crate) fn is(self, word: &[u8]) -> bool {
        self.text() == word
    }

    // The next text, behind the space after this one. Less is left of the line there, as long as anything is.
    pub(crate) fn next(self) -> Cursor<'a>
        ensures same_line { result.line.now ≡ self.entry.line.now }
        ensures less { length result.line.now - result.at ≤ length self.entry.line.now - self.entry.at - 1 }
    {
        Cursor::new(self.line, self.behind() + 1)
    }

    // This text and those behind it.
    pub(crate) fn texts(self) -> Texts<'a> {
        Texts { rest: self }
    }

    // What stands before the text, with the space between.
    pub(crate) fn before(self) -> &'a [u8] {
        &self.line[..self.at]
    }

    // The text is at fault: the whole line where it is missing.
    pub(crate) fn fault(self, wanted: Wanted) -> Fault {
        if self.is_end() {
            return whole(self.line, wanted);
        }
        Fault {
            from: self.at,
            to: self.behind(),
            wanted,
        }
    }

    // What the text is to such a reader; where it is nothing, the text is at fault.
    pub(crate) fn read<T, F: Fn(&[u8]) -> Option<T>>(
        self,
        reader: F,
        wanted: Wanted,
    ) -> Result<T, Fault>
        requires { F.IsAlwaysCallable reader }
    {
        reader(self.text()).ok_or_else(|| self.fault(wanted))
    }

    // Where a text stands that is one too many, it is at fault.
    pub(crate) fn ended(self) -> Result<(), Fault> {
        if self.is_end() {
            return Ok(());
        }
        Err(self.fault(Wanted::End))
    }
}

// The texts from a place on, each as the place where it stands.
#[derive(Clone, Copy)]
pub(crate) struct Texts<'a> {
    rest: Cursor<'a>,
}

impl<'a> Iterator for Texts<'a> {
    type Item = Cursor<'a>;

    ghost remaining = { λ s. at_most (length s.rest.line.now - s.rest.at) };

    fn next(&mut self) -> Option<Cursor<'a>> {
        let here = self.rest;
        if here.is_end() {
            return None;
        }
        self.rest = here.next();
        Some(here)
    }
}

// ---- The same from a line and a place, for crates that ask about one text and go over none.

// The text at a place, of no bytes where there is none.
pub fn text(line: &[u8], at: usize) -> &[u8] {
    Cursor::new(line, at).text()
}

// The whole line is at fault.
pub fn whole(line: &[u8], wanted: Wanted) -> Fault {
    Fault {
        from: 0,
        to: line.len(),
        wanted,
    }
}

// The text at a place is at fault: the whole line where it is missing.
pub fn fault(line: &[u8], at: usize, wanted: Wanted) -> Fault {
    Cursor::new(line, at).fault(wanted)
}
