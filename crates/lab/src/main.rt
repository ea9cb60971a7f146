// Prints, for each stride code, the banks of the sixteen addresses of a vertical load at 0, worked out by the library.
#![tactic(auto)]

ghost use Rattle.std.specs.Prelude.{◌<◌};

use std::io::Stdout;
use terms::Way;

// The bank of the load's address i.
#[tactic(auto, using(banks::proofs::Places::way_lt))]
fn bank_at(code: usize, i: usize) -> usize
    requires { (code < 4) × (i < 16) }
{
    let start = banks::start(Way::Vertical, code, 0);
    let step = banks::step(Way::Vertical, code);
    banks::bank(code, start + i * step)
}

// A write that fails is let go, and the program goes on.
fn line(out: Stdout, code: usize)
    requires { code < 4 }
{
    let _ = print!(out; "0x{:x}:", banks::step(Way::Vertical, code));
    for i in 0..16 {
        let _ = print!(out; " {}", bank_at(code, i));
    }
    let _ = println!(out);
}

fn main(rt: HostRuntime) {
    for code in 0..4 {
        line(rt.stdout(), code);
    }
}
