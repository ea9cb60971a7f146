// The command `run`: what is written of each listing, what its steps did, and what they left.
use crate::asked::Options;
use crate::expected::dotted;
use crate::lines::clean;
use crate::listing::Listing;
use crate::pages::Page;
use crate::steps::Run;
use crate::tell::Told;
use crate::{pages, start};
use orders::Order;
use orders::read::order;
use shown::cells::print_banks;
use shown::registers::registers;
use shown::subjects::subject;
use shown::total;
use shown::view::View;
use std::io::Stdout;
use text::args;
use text::find::feed;
use text::print::text;

// What the .show lines of a listing ask for. It is gone over again, so that they need not be put down.
#[inline(never)]
fn shows(out: Stdout, text: &[u8], state: View<'_>) {
    let mut room = [0; 65536];
    for raw in text.split(|&b| feed(b)) {
        let line = clean(raw, &mut room);
        if !dotted(line) {
            continue;
        }
        if let Ok(Some(Order::Show(s))) = order(line) {
            subject(out, s, state);
        }
    }
}

// Its name, where there are several listings.
fn heading(out: Stdout, many: bool, file: &[u8]) {
    if many {
        text(out, b"== ");
        text(out, file);
        text(out, b"\n");
    }
}

// The last part.
fn print_left(out: Stdout, all: bool, page: Page<'_>, run: &Run) {
    registers(out, all, run.state.view());
    shows(out, page.text, run.state.view());
    total::lines(out, run.end, run.steps, run.counts);
    print_banks(out, &run.banks);
}

// The listing that argument i names: its steps, the last part, and the status.
#[inline(never)]
fn one(rt: HostRuntime, o: Options, many: bool, i: usize) -> Result<u32, Told> {
    let out = rt.stdout();
    let mut name = [0; 65536];
    let mut text_room = [0; 65536];
    let mut listing = Listing::new();
    let page = pages::open(rt, "run", i, &mut name, &mut text_room, &mut listing)?;
    heading(out, many, page.name);
    let mut run = Run::from_state(start::set(page.text));
    run.run(out, !o.quiet, listing.steps(), listing.start);
    if !o.quiet {
        text(out, b"\n");
    }
    print_left(out, o.all, page, &run);
    Ok(total::status(run.end))
}

// The listings that the arguments name from one on, each by itself, and the greatest status.
pub fn all(rt: HostRuntime, o: Options, first: usize) -> u32 {
    let end = args::count(rt);
    let many = first.wrapping_add(1) < end;
    let mut status = 0;
    for i in first..end {
        status = one(rt, o, many, i).unwrap_or(Told::STATUS).max(status);
    }
    status
}
