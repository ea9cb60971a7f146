// Draws on standard output, as SVG, the curve of banks entered, the map of a stride code or a load: docs/PICTURES.md fixes every byte.
#![tactic(auto)]

mod access;
mod args;
mod curve;
mod load;
mod map;
mod stride;
mod svg;

use crate::access::Access;
use crate::stride::Stride;
use std::io::Stderr;

enum Picture {
    Curve,
    Map(Stride),
    Load(Access),
}

// The picture that is asked for, if the arguments name one.
fn asked(rt: HostRuntime) -> Option<Picture> {
    match text::args::count(rt) {
        0 | 1 => Some(Picture::Curve),
        3 if args::is(rt, 1, b"map") => Some(Picture::Map(args::stride(rt, 2)?)),
        5 if args::is(rt, 1, b"load") => Some(Picture::Load(Access {
            way: args::way(rt, 2)?,
            stride: args::stride(rt, 3)?,
            at: args::address(rt, 4)?,
        })),
        _ => None,
    }
}

fn usage(err: Stderr) {
    let _ = println!(err;
        "usage: plot [map CODE | load WAY CODE ADDRESS]: CODE 0 to 3, WAY horizontal, vertical or scalar, ADDRESS 0x0 to 0x1fff"
    );
}

fn main(rt: HostRuntime) {
    let out = rt.stdout();
    match asked(rt) {
        Some(Picture::Curve) => curve::picture(out),
        Some(Picture::Map(stride)) => map::picture(out, stride),
        Some(Picture::Load(load)) => load::picture(out, load),
        None => usage(rt.stderr()),
    }
}
