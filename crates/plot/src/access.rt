// The addresses of an access, and what they say of a bank: its cell, and which halves of it.
ghost use Rattle.std.specs.Prelude.{◌≡◌, ◌<◌};
ghost use Rattle.banks.specs.Line.{count_of};

use crate::stride::Stride;
use std::fmt;
use terms::Way;

// The halves of a cell that are entered.
#[derive(Clone, Copy)]
pub enum Halves {
    Low,
    High,
    Both,
}

impl fmt::Display for Halves {
    fn fmt<W: fmt::Write>(&self, f: &mut fmt::Formatter<W>) -> fmt::Result {
        f.write_str(match self {
            Halves::Low => "low",
            Halves::High => "high",
            Halves::Both => "low and high",
        })
    }
}

// What is entered of a bank.
#[derive(Clone, Copy)]
pub struct Entered {
    pub cell: usize,
    pub halves: Halves,
}

#[derive(Clone, Copy)]
pub struct Access {
    pub way: Way,
    pub stride: Stride,
    pub at: usize,
}

impl Access {
    // How many addresses there are.
    pub fn count(self) -> usize
        ensures { result ≡ count_of self.way }
    {
        match self.way {
            Way::Horizontal | Way::Vertical => 16,
            Way::Scalar => 4,
        }
    }

    // Number i of them.
    #[tactic(auto, using(banks::proofs::Places::way_lt))]
    pub fn address(self, i: usize) -> usize
        requires { i < count_of self.way }
        ensures { result < 8192 }
    {
        let start = banks::start(self.way, self.stride.code, self.at);
        let step = banks::step(self.way, self.stride.code);
        start + i * step
    }

    // Whether an address names this half of a cell of the bank.
    fn names(self, bank: usize, half: usize) -> bool {
        (0..self.count()).any(|i| {
            let a = self.address(i);
            self.stride.bank(a) == bank && a / 16 % 2 == half
        })
    }

    // The halves that all addresses name of a bank, if it is entered.
    fn halves(self, bank: usize) -> Option<Halves> {
        match (self.names(bank, 0), self.names(bank, 1)) {
            (false, false) => None,
            (true, false) => Some(Halves::Low),
            (false, true) => Some(Halves::High),
            (true, true) => Some(Halves::Both),
        }
    }

    // The cell that is entered in a bank. The first address of this bank decides, since no access has two cells in one bank.
    fn cell(self, bank: usize) -> Option<usize> {
        (0..self.count())
            .map(|i| self.address(i))
            .find(|a| self.stride.bank(*a) == bank)
            .map(|a| a / 32)
    }

    // What is entered of a bank, if anything is.
    pub fn entered(self, bank: usize) -> Option<Entered> {
        Some(Entered {
            cell: self.cell(bank)?,
            halves: self.halves(bank)?,
        })
    }
}
