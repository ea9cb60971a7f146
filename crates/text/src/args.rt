// The arguments that a program was started with, as bytes: number 0 is its own name. There is no heap, so they are put in a room of the caller's, and the answer is a length.
ghost use Rattle.text.specs.Counts.{IsPrefixLen};

use std::env::{Env, FillError};

// Puts argument i at the start of room and answers its length: 0 where it is missing, and where it is longer than room, which then has its first bytes.
pub fn whole(rt: HostRuntime, i: usize, room: &mut [u8]) -> usize
    ensures { IsPrefixLen result room.new }
{
    rt.arg(i, room).unwrap_or(0)
}

// The same, but of one that is longer than room the first bytes are taken, as many as there is room for.
pub fn beginning(rt: HostRuntime, i: usize, room: &mut [u8]) -> usize
    ensures { IsPrefixLen result room.new }
{
    match rt.arg(i, room) {
        Ok(n) => n,
        Err(FillError::TooLong) => room.len(),
        Err(FillError::NotPresent) => 0,
    }
}

fn is_there(rt: HostRuntime, i: usize) -> bool {
    let mut first = [0u8; 1];
    !matches!(rt.arg(i, &mut first), Err(FillError::NotPresent))
}

// How many there are.
pub fn count(rt: HostRuntime) -> usize {
    (0..usize::MAX)
        .find(|&i| !is_there(rt, i))
        .unwrap_or(usize::MAX)
}
