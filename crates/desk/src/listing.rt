// A listing: its steps are put down, and all else is counted.
use crate::pages::{Contents, Start, started};
use crate::tell::Wrong;
use orders::cursor::{fault, whole};
use orders::read::{order, sets};
use orders::{Fault, Order, Triple, Wanted};

const MOST_STEPS: usize = 1024;

const MOST_SHOWS: usize = 64;

// The steps, the first `count` of an array, since nothing is allocated; how many .show lines there are; and what the dot lines set.
#[derive(Drop)]
pub struct Listing {
    steps: [Triple; MOST_STEPS],
    count: usize,
    shows: usize,
    pub start: Option<Start>,
}

impl Listing {
    pub fn new() -> Listing {
        let none = Triple {
            word: 0,
            side: 0,
            mask: 0,
        };
        Listing {
            steps: [none; MOST_STEPS],
            count: 0,
            shows: 0,
            start: None,
        }
    }

    pub fn steps(&self) -> &[Triple] {
        self.steps.get(..self.count).unwrap_or(&[])
    }

    fn step(&mut self, line: &[u8], t: Triple) -> Result<(), Fault> {
        let Some(place) = self.steps.get_mut(self.count) else {
            return Err(whole(line, Wanted::Steps));
        };
        *place = t;
        self.count += 1;
        Ok(())
    }

    // What is to be shown is not put down: the listing is gone over again at the end.
    fn show(&mut self, line: &[u8]) -> Result<(), Fault> {
        if self.shows >= MOST_SHOWS {
            return Err(whole(line, Wanted::Shows));
        }
        self.shows += 1;
        Ok(())
    }
}

impl Contents for Listing {
    fn take(&mut self, line: &[u8]) -> Result<(), Fault> {
        if self.count > 0 && sets(line) {
            return Err(fault(line, 0, Wanted::BeforeStep));
        }
        match order(line)? {
            Some(Order::Step(t)) => self.step(line, t),
            Some(Order::Show(_)) => self.show(line),
            Some(o) => {
                self.start = started(self.start, o);
                Ok(())
            }
            None => Ok(()),
        }
    }

    fn ended(&self) -> Result<(), Wrong> {
        if self.count == 0 && self.shows == 0 && self.start.is_none() {
            return Err(Wrong::NoStep);
        }
        Ok(())
    }
}
