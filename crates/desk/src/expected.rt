// A file of what is expected: its lines set the start, or are compared after the run.
use crate::pages::{Contents, Start, started};
use crate::tell::Wrong;
use orders::cursor::fault;
use orders::read::{sets, start};
use orders::{Expected, Fault, Wanted, read};

// Whether a line is compared, and an answer is among these; and what the dot lines set.
#[derive(Clone, Copy)]
pub struct Wishes {
    compares: bool,
    pub answers: bool,
    pub start: Option<Start>,
}

impl Wishes {
    pub fn new() -> Wishes {
        Wishes {
            compares: false,
            answers: false,
            start: None,
        }
    }

    fn dot(&mut self, line: &[u8]) -> Result<(), Fault> {
        if self.compares && sets(line) {
            return Err(fault(line, 0, Wanted::BeforeCompared));
        }
        if let Some(o) = start(line)? {
            self.start = started(self.start, o);
        }
        Ok(())
    }

    fn compared(&mut self, line: &[u8]) -> Result<(), Fault> {
        let e = read::expected(line)?;
        self.compares = true;
        if matches!(e, Some(Expected::Answer(_))) {
            self.answers = true;
        }
        Ok(())
    }
}

// Whether the line begins with a dot.
pub fn dotted(line: &[u8]) -> bool {
    line.starts_with(b".")
}

impl Contents for Wishes {
    fn take(&mut self, line: &[u8]) -> Result<(), Fault> {
        if dotted(line) {
            return self.dot(line);
        }
        self.compared(line)
    }

    fn ended(&self) -> Result<(), Wrong> {
        if self.compares {
            Ok(())
        } else {
            Err(Wrong::NoneCompared)
        }
    }
}
