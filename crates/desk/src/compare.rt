// What a run has left, compared with the lines of a file of what is expected.
use crate::expected::dotted;
use crate::lines::clean;
use crate::steps::Run;
use orders::read::expected;
use orders::{Expected, Subject};
use shown::cells::print_banks;
use shown::subjects::{bytes_of, subject};
use shown::{figures, phrases};
use std::io::Stdout;
use terms::End;
use text::find::feed;
use text::print::{quote, text};

// How many lines were compared, and how many of these differ.
#[derive(Clone, Copy)]
pub struct Tally {
    pub compared: u32,
    pub differ: u32,
}

impl Tally {
    // With one line more. Wrapping, since a bound on the lines is of no use to any caller.
    fn add(&mut self, agrees: bool) {
        self.compared = self.compared.wrapping_add(1);
        if !agrees {
            self.differ = self.differ.wrapping_add(1);
        }
    }
}

fn agrees(e: Expected, run: &Run) -> bool {
    match e {
        Expected::Part(p) => run.state.word(p.kind, p.n) & p.mask == p.value,
        Expected::Sixteen(s, wanted) => bytes_of(run.state.view(), s) == wanted,
        Expected::Answer(n) => u32::from(run.end) == n,
        Expected::Steps(n) => run.steps == n,
        Expected::Cells(n) => run.counts.accesses == u64::from(n),
        Expected::Clipped(n) => run.counts.clipped == u64::from(n),
        Expected::Banks(wanted) => run.banks == wanted,
    }
}

// What the run has left of the thing that a line speaks of.
fn found(out: Stdout, e: Expected, run: &Run) {
    match e {
        Expected::Part(p) => subject(out, Subject::Word(p.kind, p.n), run.state.view()),
        Expected::Sixteen(s, _) => subject(out, s, run.state.view()),
        Expected::Answer(_) => phrases::answer(out, run.end),
        Expected::Steps(_) => figures::line(out, b"steps ", u64::from(run.steps)),
        Expected::Cells(_) => figures::line(out, b"cells ", run.counts.accesses),
        Expected::Clipped(_) => figures::line(out, b"clipped ", run.counts.clipped),
        Expected::Banks(_) => print_banks(out, &run.banks),
    }
}

// The two lines of a line that differs; the first one's number is 0.
fn differs(out: Stdout, i: usize, line: &[u8], e: Expected, run: &Run) {
    let number = i.wrapping_add(1);
    let _ = print!(out; "line {number}: expected ");
    quote(out, line, 128);
    let _ = print!(out; "\nline {number}: found ");
    found(out, e, run);
}

// The answer 0 that is expected where no line has an answer.
fn unsaid(out: Stdout, answers: bool, end: End) -> Tally {
    let mut t = Tally {
        compared: 0,
        differ: 0,
    };
    if answers {
        return t;
    }
    let done = end == End::Done;
    if !done {
        text(out, b"line 0: expected answer 0\nline 0: found ");
        phrases::answer(out, end);
    }
    t.add(done);
    t
}

// Goes over the lines, which are good: those that begin with a dot have set the start. `answers` says that one of them has an answer.
#[inline(never)]
pub fn compare(out: Stdout, run: &Run, answers: bool, text: &[u8]) -> Tally {
    let mut room = [0; 65536];
    let mut t = unsaid(out, answers, run.end);
    for (i, raw) in text.split(|&b| feed(b)).enumerate() {
        let line = clean(raw, &mut room);
        if line.is_empty() || dotted(line) {
            continue;
        }
        if let Ok(Some(e)) = expected(line) {
            let agrees = agrees(e, run);
            if !agrees {
                differs(out, i, line, e, run);
            }
            t.add(agrees);
        }
    }
    t
}
