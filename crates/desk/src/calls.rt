// The calls of the proved crates, over a state: a step, the places that it touches, and whether it may change places with the next one.
use machine::Stepped;
use orders::Triple;
use shown::state::State;
use swap::Swap;
use terms::End;

// Does a step.
pub fn step(s: &mut State, t: Triple) -> Stepped {
    machine::step(
        t.word, t.side, t.mask, &mut s.ds, &mut s.a, &mut s.r, &mut s.c, &mut s.vc, &mut s.v,
    )
}

// What may_swap says of a step and the next one.
pub fn question(s: &State, t: Triple, next: Triple) -> Swap {
    swap::may_swap(
        t.word, t.side, t.mask, next.word, next.side, next.mask, &s.ds, &s.a, &s.r, &s.c, &s.vc,
        &s.v,
    )
}

// The places of a step: those that it reads, and behind them those that it writes. Every entry behind these is 0, which is no place of the store.
#[derive(Clone, Copy)]
pub struct Places {
    pub end: End,
    pub all: [u32; 22],
    pub reads: u32,
    pub writes: u32,
}

impl Places {
    pub fn read(&self) -> &[u32] {
        self.all.get(..self.reads as usize).unwrap_or(&[])
    }

    pub fn written(&self) -> &[u32] {
        let behind = self.all.get(self.reads as usize..).unwrap_or(&[]);
        behind.get(..self.writes as usize).unwrap_or(&[])
    }
}

// The places of a step in a state, none of one that is refused.
pub fn places_of(s: &State, t: Triple) -> Places {
    let mut all = [0; 22];
    let listed = swap::places(
        t.word, t.side, t.mask, &s.ds, &s.a, &s.r, &s.c, &s.vc, &s.v, &mut all,
    );
    Places {
        end: listed.end,
        all,
        reads: listed.reads,
        writes: listed.writes,
    }
}
