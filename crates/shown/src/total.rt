// How a run ended: its lines of the last part, and the status that a program has for it.
use crate::figures::line;
use crate::phrases::answer;
use std::io::Stdout;
use terms::Counts;

// The answer, the steps done, and what they count: their cell accesses, and their clipped components.
pub fn lines<N: Into<u32>>(out: Stdout, end: N, steps: u32, counts: Counts) {
    answer(out, end);
    line(out, b"steps ", u64::from(steps));
    line(out, b"cells ", counts.accesses);
    line(out, b"clipped ", counts.clipped);
}

// The status of an answer.
pub fn status<N: Into<u32>>(end: N) -> u32 {
    let n: u32 = end.into();
    u32::from(n != 0)
}
