// The terms that every layer speaks in: the way of an access, a half of a word, why a call stopped and its number, what a step and a run count.
#![tactic(auto)]

ghost use Rattle.std.specs.Prelude.{◌≡◌};
ghost use Rattle.terms.specs.Answers.{number, numbered};
ghost use Rattle.terms.specs.declared.End.TheVariants.{Refused};
ghost use Rattle.terms.specs.Inner.Runs.{end_of, amount, most};
ghost use Rattle.terms.specs.Counts.{none, plus, Within, within_of};

use std::ops::Add;

// How an access goes: along a row, down a column, or over the four bytes of a word.
#[derive(Clone, Copy, PartialEq, Eq)]
pub enum Way {
    Horizontal,
    Vertical,
    Scalar,
}

#[derive(Clone, Copy, PartialEq, Eq)]
pub enum Half {
    Low,
    High,
}

// Why a triple is refused.
#[derive(Clone, Copy, PartialEq, Eq)]
pub enum Refusal {
    Foreign,
    Undocumented,
    SideIndex,
    SideMask,
}

// Why a call stopped: all is done, a triple was refused, a piece has another length (or a run in parts is none), the words or bytes are no whole triples, the
// budget is spent; of a line, its name is none, something else is amiss, its line feed is not the last byte and the only one, the output is too short.
#[derive(Clone, Copy, PartialEq, Eq)]
pub enum End {
    Done,
    Refused(Refusal),
    Lengths,
    Ragged,
    Spent,
    Unnamed,
    Amiss,
    Unended,
    Short,
}

// What a call reports besides the state: the cells that its accesses entered, and the components whose true result lay outside the clip range.
#[derive(Clone, Copy)]
pub struct Counts {
    pub accesses: u64,
    pub clipped: u64,
}

// What one step counts. No step counts both, and a step pays for no total that it does not add to.
#[derive(Clone, Copy)]
pub enum Counted {
    Nothing,
    Cells(u64),
    Clipped(u64),
}

// The papers' numbers.
impl From<Refusal> for u32 {
    ghost from_gives = { λ k n. n ≡ number (Refused k) };

    fn from(k: Refusal) -> u32 {
        match k {
            Refusal::Foreign => 1,
            Refusal::Undocumented => 2,
            Refusal::SideIndex => 3,
            Refusal::SideMask => 4,
        }
    }
}

impl From<End> for u32 {
    ghost from_gives = { λ e n. n ≡ number e };

    fn from(e: End) -> u32 {
        match e {
            End::Done => 0,
            End::Refused(k) => u32::from(k),
            End::Lengths => 5,
            End::Ragged => 6,
            End::Spent => 7,
            End::Unnamed => 8,
            End::Amiss => 9,
            End::Unended => 10,
            End::Short => 11,
        }
    }
}

// The answer of a number; one above the last is taken for the last.
impl From<u32> for End {
    ghost from_gives = { λ n e. e ≡ numbered n };

    fn from(n: u32) -> End {
        match n {
            0 => End::Done,
            1 => End::Refused(Refusal::Foreign),
            2 => End::Refused(Refusal::Undocumented),
            3 => End::Refused(Refusal::SideIndex),
            4 => End::Refused(Refusal::SideMask),
            5 => End::Lengths,
            6 => End::Ragged,
            7 => End::Spent,
            8 => End::Unnamed,
            9 => End::Amiss,
            10 => End::Unended,
            _ => End::Short,
        }
    }
}

// How a run ends with a triple's answer.
pub fn end_of(x: Result<Counted, Refusal>) -> End
    ensures { result ≡ end_of x }
{
    match x {
        Ok(_) => End::Done,
        Err(k) => End::Refused(k),
    }
}

// Nothing is counted. (Written out, since a field of its own is where a wrong count would stand.)
impl Default for Counts {
    ghost is_default = { λ c. c ≡ none };

    fn default() -> Counts {
        Counts {
            accesses: 0,
            clipped: 0,
        }
    }
}

// Two runs' counts, of fewer steps together than a budget can ask for.
impl Add for Counts {
    type Output = Counts;

    ghost can_add = { λ x y. Within most (plus x y) };

    ghost add_gives = { λ x y z. z ≡ plus x y };

    fn add(self, y: Counts) -> Counts {
        Counts {
            accesses: self.accesses + y.accesses,
            clipped: self.clipped + y.clipped,
        }
    }
}

impl Counts {
    // The total with a step more.
    pub fn more(self, n: Counted) -> Counts
        requires { Within most (plus self (amount n)) }
        ensures { result ≡ plus self (amount n) }
    {
        match n {
            Counted::Nothing => self,
            Counted::Cells(k) => Counts {
                accesses: self.accesses + k,
                clipped: self.clipped,
            },
            Counted::Clipped(k) => Counts {
                accesses: self.accesses,
                clipped: self.clipped + k,
            },
        }
    }

    // Whether n steps can have counted this.
    pub fn within(self, n: u32) -> bool
        ensures { result ≡ within_of n self }
    {
        let most = n as u64 * 16;
        (self.accesses <= most) & (self.clipped <= most)
    }
}
