// The addresses and cells of the store's bytes: the address of one, and how many cells of each bank the steps enter.
ghost use Rattle.std.specs.Prelude.{◌<◌};

use crate::places::byte_of;
use std::io::Stdout;
use text::print::text;

// The address that lies at an index of the store under a stride code. Within a row the banks go round, from that of its first address on.
pub fn address_of(index: usize, code: usize) -> usize {
    if index >= 8192 || code > 3 {
        return 0;
    }
    let row = index % 512 * 16;
    let first = banks::bank(code, row) % 16;
    row + (index / 512 + 16 - first) % 16
}

// The two bytes of a cell are neighbours, the first one's number is even.
fn same_cell(p: u32, q: u32) -> bool {
    p / 2 == q / 2
}

// One cell more, that of this byte of the store. Wrapping, since a bound on the cells is of no use to any caller.
fn enter(banks: &mut [u32; 16], index: usize)
    requires { index < 8192 }
{
    let bank = index / 512;
    banks[bank] = banks[bank].wrapping_add(1);
}

// Counts the cells of a step's places, each once.
pub fn count(banks: &mut [u32; 16], places: &[u32; 22]) {
    for (i, &place) in places.iter().enumerate() {
        let Some(index) = byte_of(place) else {
            continue;
        };
        if !places[..i].iter().any(|&p| same_cell(p, place)) {
            enter(banks, index);
        }
    }
}

pub fn print_banks(out: Stdout, banks: &[u32; 16]) {
    text(out, b"banks");
    for n in banks {
        let _ = print!(out; " {n}");
    }
    text(out, b"\n");
}
