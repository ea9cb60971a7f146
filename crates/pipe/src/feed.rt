// Standard input, fed to a run part by part.
use parts::Run;
use shown::state::State;
use std::io;
use std::io::{Read, Stdin};

fn part(run: Run, bytes: &[u8], s: &mut State) -> Run {
    parts::part(
        run, bytes, &mut s.ds, &mut s.a, &mut s.r, &mut s.c, &mut s.vc, &mut s.v,
    )
}

// Reads to the end, also where the run is over before it, so that whoever writes can do so in peace; what each read brings is one part. From a state of zeros.
// A proved loop has to end, and nothing says that standard input does: so the turns are counted, up to a number that no run uses up.
pub fn all(mut input: Stdin, first: Run) -> io::Result<Run> {
    let mut state = State::zeros();
    let mut run = first;
    let mut bytes = [0; 4096];
    for _ in 0..u64::MAX {
        let n = input.read(&mut bytes)?;
        if n == 0 {
            break;
        }
        run = part(run, &bytes[..n], &mut state);
    }
    Ok(run)
}
