// The command `check`: a listing is run in silence, and what it leaves is compared with what is expected.
use crate::compare::Tally;
use crate::expected::Wishes;
use crate::listing::Listing;
use crate::steps::Run;
use crate::tell::Told;
use crate::{compare, pages, start};
use std::io::Stdout;
use text::print::text;

// The last line, and the status.
fn verdict(out: Stdout, file: &[u8], t: Tally) -> u32 {
    text(out, file);
    let differ = t.differ;
    let compared = t.compared;
    if differ == 0 {
        let _ = println!(out; ": as expected, {compared} compared");
        return 0;
    }
    let _ = println!(out; ": {differ} of {compared} differ");
    1
}

// The listing that argument i names against the file that argument j names. Where this sets the start, the listing does not.
#[inline(never)]
pub fn check(rt: HostRuntime, i: usize, j: usize) -> Result<u32, Told> {
    let out = rt.stdout();
    let mut name = [0; 65536];
    let mut text_room = [0; 65536];
    let mut listing = Listing::new();
    let page = pages::open(rt, "check", i, &mut name, &mut text_room, &mut listing)?;
    let mut other_name = [0; 65536];
    let mut other_room = [0; 65536];
    let mut wishes = Wishes::new();
    let wanted = pages::open(
        rt,
        "check",
        j,
        &mut other_name,
        &mut other_room,
        &mut wishes,
    )?;
    let sets = if wishes.start.is_some() {
        wanted.text
    } else {
        page.text
    };
    let mut run = Run::from_state(start::set(sets));
    run.run(out, false, listing.steps(), wishes.start.or(listing.start));
    let t = compare::compare(out, &run, wishes.answers, wanted.text);
    Ok(verdict(out, page.name, t))
}
