// What is said of a fault, on standard error; and the status, where it is asked for. A write that fails is let go, as in print.rt.
pub use crate::print::{decimal, quote, text as say};
use std::fs::OpenOptions;
use std::io::Write;

// Where a status goes that is asked for: descriptor 3, by the name that Linux has for it.
const TOLD: &str = "/proc/self/fd/3";

// The exit status that a program would have. It goes behind what is there.
pub fn status(rt: HostRuntime, n: u32) {
    if let Ok(mut told) = OpenOptions::new().append(true).open(&rt, TOLD) {
        let _ = write!(told, "{n}");
    }
}
