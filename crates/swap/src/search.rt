// The search for a clash of two footprints.
ghost use Rattle.std.specs.Prelude.{◌≡◌, ◌≤◌, drop};
ghost use Rattle.model.specs.Swap.{first_in, free};
ghost use Rattle.footprint.specs.Inner.Numbers.{held};
ghost use Rattle.swap.specs.Answers.{told};
ghost use Rattle.swap.specs.Inner.Calls.{first_of};

use crate::Clash;
use footprint::{Numbers, Touches};

// The first of l, from index `from` on, that is in m too.
fn first(l: Numbers, from: usize, m: Numbers) -> Option<u32>
    requires { (l.count ≤ 22) × (m.count ≤ 22) }
    ensures { result ≡ first_of (drop from (held l)) (held m) }
{
    for x in l.held().get(from..)? {
        if m.held().contains(x) {
            return Some(*x);
        }
    }
    None
}

pub fn clash(f: Touches, g: Touches) -> Option<Clash>
    requires { (f.list.count ≤ 22) × (g.list.count ≤ 22) }
    ensures { told result ≡ first_in (drop f.reads (held f.list)) (held g.list) 1
        (first_in (drop g.reads (held g.list)) (held f.list) 2 free) }
{
    if let Some(place) = first(f.list, f.reads, g.list) {
        return Some(Clash { place, writer: 1 });
    }
    if let Some(place) = first(g.list, g.reads, f.list) {
        return Some(Clash { place, writer: 2 });
    }
    None
}
