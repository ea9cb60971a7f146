// The run of a listing's steps, and what is written of each.
use crate::calls;
use crate::pages::Start;
use machine::Stepped;
use orders::Triple;
use shown::state::State;
use shown::{cells, changes, phrases};
use std::io::Stdout;
use swap::{Clash, Swap};
use terms::{Counts, End};
use text::print::{counted, text};

// How far a run has come: its state, its answer, the steps done, what they count, and the cells that they have entered in each bank.
#[derive(Drop)]
pub struct Run {
    pub state: State,
    pub end: End,
    pub steps: u32,
    pub counts: Counts,
    pub banks: [u32; 16],
}

// The writer is a number, since swap hands it to C as one.
fn print_clash(out: Stdout, clash: Clash) {
    text(out, b"clash at ");
    phrases::place(out, clash.place);
    let which = if clash.writer == 1 { "first" } else { "second" };
    let _ = print!(out; ", which the {which} writes");
}

// What is said of a step and the next one.
fn print_swap(out: Stdout, s: Swap) {
    text(out, b"; with the next: ");
    if s.end != End::Done {
        phrases::refused(out, s.end);
        return;
    }
    match s.clash {
        None => text(out, b"free"),
        Some(clash) => print_clash(out, clash),
    }
}

// The line of a step, with what is said of it and the next one where there is one.
fn print_step(out: Stdout, number: u32, t: Triple, x: Stepped, swap: Option<Swap>) {
    let _ = print!(out; "{number}: ");
    phrases::step_text(out, t);
    text(out, b": ");
    if x.end == End::Done {
        text(out, b"done, ");
        counted(out, x.counts.accesses, b" cell");
        let _ = print!(out; ", {} clipped", x.counts.clipped);
        if let Some(s) = swap {
            print_swap(out, s);
        }
    } else {
        phrases::refused(out, x.end);
    }
    text(out, b"\n");
}

impl Run {
    // Before the first step.
    pub fn from_state(state: State) -> Run {
        Run {
            state,
            end: End::Done,
            steps: 0,
            counts: Counts::default(),
            banks: [0; 16],
        }
    }

    // Wrapping, since a bound on the counts is of no use to any caller: there are at most 1,024 steps, each with at most 16 of either.
    fn add(&mut self, x: Stepped) {
        self.end = x.end;
        if x.end == End::Done {
            self.steps = self.steps.wrapping_add(1);
            self.counts.accesses = self.counts.accesses.wrapping_add(x.counts.accesses);
            self.counts.clipped = self.counts.clipped.wrapping_add(x.counts.clipped);
        }
    }

    // One step. The question about it and the next one, its places and what it will change are asked for in the state before it.
    fn step(&mut self, out: Stdout, loud: bool, t: Triple, next: Option<Triple>) {
        let swap = next.map(|next| calls::question(&self.state, t, next));
        let places = calls::places_of(&self.state, t);
        cells::count(&mut self.banks, &places.all);
        let before = changes::note_listed(
            &places.all,
            places.reads,
            places.writes,
            self.state.view(),
        );
        let x = calls::step(&mut self.state, t);
        if loud {
            print_step(out, self.steps.wrapping_add(1), t, x, swap);
            changes::changes(out, &before, self.state.view());
        }
        self.add(x);
    }

    // The steps of a listing, up to one that is refused, or up to the budget.
    pub fn run(&mut self, out: Stdout, loud: bool, steps: &[Triple], start: Option<Start>) {
        let budget = start.and_then(|s| s.budget);
        let most = budget.map_or(steps.len(), |n| n as usize);
        for (i, &t) in steps.iter().enumerate().take(most) {
            self.step(out, loud, t, steps.get(i + 1).copied());
            if self.end != End::Done {
                return;
            }
        }
        if most < steps.len() {
            self.end = End::Spent;
        }
    }
}
