// The command `explain`: its arguments are read as lines of a listing.
use crate::explain::explain;
use crate::lines::clean;
use crate::tell;
use crate::tell::Told;
use orders::{Fault, read};
use std::env::Env;
use text::find::feed;

// What argument i is, read as a line of a listing: only what stands before a line feed. What is wrong with it is told.
#[inline(never)]
fn read_as<T, F: Fn(&[u8]) -> Result<T, Fault>>(
    rt: HostRuntime,
    i: usize,
    read: F,
) -> Result<T, Told>
    requires { F.IsAlwaysCallable read }
{
    let err = rt.stderr();
    let mut text = [0; 4096];
    let mut room = [0; 4096];
    let Ok(n) = rt.arg(i, &mut text) else {
        return Err(tell::long_argument(err));
    };
    let first = text[..n].split(|&b| feed(b)).next().unwrap_or(&[]);
    let line = clean(first, &mut room);
    read(line).map_err(|f| tell::argument(err, line, f))
}

// Argument i is the step, and another one, where it is given, the value of its base register.
pub fn explained(rt: HostRuntime, step: usize, base: Option<usize>) -> Result<u32, Told> {
    let t = read_as(rt, step, read::step)?;
    let value = match base {
        Some(i) => read_as(rt, i, read::value)?.value,
        None => 0,
    };
    Ok(explain(rt.stdout(), t, value))
}
