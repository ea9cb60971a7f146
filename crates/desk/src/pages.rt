// A listing, or a file of what is expected, looked at line by line up to the first fault. What sets the start is done afterwards, by `start`.
use crate::lines::clean;
use crate::tell::{Told, Wrong};
use crate::{source, tell};
use orders::{Fault, Order};
use text::find::feed;

// A page's name and its text.
#[derive(Clone, Copy)]
pub struct Page<'a> {
    pub name: &'a [u8],
    pub text: &'a [u8],
}

// What is put down of a page.
pub trait Contents {
    // A line that has a text.
    fn take(&mut self, line: &[u8]) -> Result<(), Fault>;

    // Whether there is what a page is for.
    fn ended(&self) -> Result<(), Wrong>;
}

// What the dot lines of a page set that sets the start: everything, and so no budget is left of the page before.
#[derive(Clone, Copy)]
pub struct Start {
    pub budget: Option<u32>,
}

// With one more line that sets the start.
pub fn started(start: Option<Start>, o: Order<'_>) -> Option<Start> {
    let budget = match o {
        Order::Budget(n) => Some(n),
        _ => start.and_then(|s| s.budget),
    };
    Some(Start { budget })
}

// Looks at the text of a page.
#[inline(never)]
fn look<C: Contents>(text: &[u8], contents: &mut C) -> Result<(), Wrong> {
    let mut room = [0; 65536];
    for (i, raw) in text.split(|&b| feed(b)).enumerate() {
        let line = clean(raw, &mut room);
        if !line.is_empty() {
            contents.take(line).map_err(|f| Wrong::Line(i, f))?;
        }
    }
    contents.ended()
}

// The page that argument i names, without a fault. Its name and its text are put into rooms. `who` is the command's word.
pub fn open<'a, C: Contents>(
    rt: HostRuntime,
    who: &str,
    i: usize,
    name_room: &'a mut [u8],
    text_room: &'a mut [u8],
    contents: &mut C,
) -> Result<Page<'a>, Told> {
    let err = rt.stderr();
    let name = source::name(rt, i, name_room);
    let unread = Page { name, text: &[] };
    let text = source::read(rt, name, text_room).map_err(|w| tell::page(err, who, unread, w))?;
    let page = Page { name, text };
    look(text, contents).map_err(|w| tell::page(err, who, page, w))?;
    Ok(page)
}
