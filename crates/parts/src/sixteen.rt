// The state of a run in parts as sixteen words of 32 bits, for C.
ghost use Rattle.std.specs.Prelude.{◌≡◌, ◌++◌, ◌+◌, ◌*◌};
ghost use Rattle.model.specs.Address.{split};
ghost use Rattle.parts.specs.Words.{worded, unworded};

use crate::Run;
use crate::bytes::triple;
use terms::{Counts, End};

// The bytes of three words, low byte first.
fn bytes(x: u32, y: u32, z: u32) -> [u8; 12]
    ensures { result ≡ split x ++ split y ++ split z }
{
    [
        (x % 256) as u8,
        (x / 256 % 256) as u8,
        (x / 65536 % 256) as u8,
        (x / 16777216 % 256) as u8,
        (y % 256) as u8,
        (y / 256 % 256) as u8,
        (y / 65536 % 256) as u8,
        (y / 16777216 % 256) as u8,
        (z % 256) as u8,
        (z / 256 % 256) as u8,
        (z / 65536 % 256) as u8,
        (z / 16777216 % 256) as u8,
    ]
}

// A number of 64 bits from its halves, low first.
fn wide(low: u32, high: u32) -> u64
    ensures { result ≡ low + high * 4294967296 }
{
    low as u64 + high as u64 * 4294967296
}

// The run that sixteen words hold.
pub fn load(words: &[u32; 16]) -> Run
    ensures { result ≡ unworded words.now }
{
    let counts = Counts {
        accesses: wide(words[4], words[5]),
        clipped: wide(words[10], words[11]),
    };
    Run {
        budget: words[0],
        over: words[1] != 0,
        end: End::from(words[2]),
        steps: words[3],
        counts,
        count: words[6],
        held: bytes(words[7], words[8], words[9]),
    }
}

// The words of a run.
fn words(x: Run) -> [u32; 16]
    ensures { result ≡ worded x }
{
    let end = x.end;
    let h = x.held;
    let held = triple(h);
    let accesses = x.counts.accesses;
    let clipped = x.counts.clipped;
    [
        x.budget,
        u32::from(x.over),
        u32::from(end),
        x.steps,
        (accesses % 4294967296) as u32,
        (accesses / 4294967296) as u32,
        x.count,
        held[0],
        held[1],
        held[2],
        (clipped % 4294967296) as u32,
        (clipped / 4294967296) as u32,
        0,
        0,
        0,
        0,
    ]
}

// Puts a run's words down.
pub fn store(x: Run, to: &mut [u32; 16])
    ensures { to.new ≡ worded x }
{
    *to = words(x);
}
