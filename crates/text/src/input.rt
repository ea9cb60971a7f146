// What a program reads: a file, or standard input.
ghost use Rattle.std.specs.Prelude.{◌≡◌, IfOk, IfErr, length};
ghost use Rattle.text.specs.Counts.{IsPrefixLen};

use std::io;
use std::io::Read;

// A read that failed, and how many bytes had come before it.
#[derive(Clone, Copy)]
pub struct Cut {
    pub came: usize,
    pub error: io::Error,
}

// Reads until room is full, the input ends or a read fails, puts what comes at the start of room, and answers how many bytes that is.
pub fn fill<R: Read>(from: &mut R, room: &mut [u8]) -> Result<usize, Cut>
    ensures came { IfOk result (λ n. IsPrefixLen n room.new) }
    ensures cut { IfErr result (λ x. IsPrefixLen x.came room.new) }
    ensures kept { length room.new ≡ length room.old }
{
    // No index: each read brings as many bytes as it likes.
    let mut done = 0;
    while done < room.len() {
        match from.read(&mut room[done..]) {
            Ok(0) => break,
            Ok(n) => done += n,
            Err(error) => return Err(Cut { came: done, error }),
        }
    }
    Ok(done)
}
