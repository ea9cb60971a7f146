// What the arguments ask for: whether the status is to be told, and the budget.
use crate::tell::Wrong;
use text::args;
use text::number::number;

// Whether the first argument is --tell.
pub fn tell(rt: HostRuntime) -> bool {
    let mut word = [0; 8];
    let n = args::whole(rt, 1, &mut word);
    matches!(&word[..n], b"--tell")
}

// The number that argument i is. Of one that is too long for any number its first bytes are enough.
fn given(rt: HostRuntime, i: usize) -> Result<u32, Wrong> {
    let mut room = [0; 4096];
    let n = args::beginning(rt, i, &mut room);
    number(&room[..n]).ok_or(Wrong::Number(i))
}

// The budget, behind --tell if that is there, and the largest where none is given.
pub fn budget(rt: HostRuntime, behind: bool) -> Result<u32, Wrong> {
    let first = if behind { 2 } else { 1 };
    match args::count(rt).saturating_sub(first) {
        0 => Ok(u32::MAX),
        1 => given(rt, first),
        _ => Err(Wrong::Arguments),
    }
}
