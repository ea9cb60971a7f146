// What .show lines ask for. A row and a column have the stride code and the address, eight cells the bank and the first cell.
use crate::figures::{access, bytes};
use crate::registers;
use crate::registers::vector_named;
use crate::view::View;
use orders::Subject;
use std::io::Stdout;
use terms::Way;
use text::print::text;

fn row(ds: &[u8; 8192], code: usize, addr: usize) -> Option<[u8; 16]> {
    if code > 3 {
        return None;
    }
    Some(store::load_row(ds, code, addr))
}

fn column(ds: &[u8; 8192], code: usize, addr: usize) -> Option<[u8; 16]> {
    if code > 3 {
        return None;
    }
    let mut loaded = [0; 16];
    store::load_column(ds, code, addr, &mut loaded);
    Some(loaded)
}

// Eight cells of a bank, where it has so many from this one on.
fn cells(ds: &[u8], bank: usize, cell: usize) -> Option<[u8; 16]> {
    let from = cell.checked_mul(2)?;
    let held = store::bank_view(ds, bank).get(from..)?;
    held.first_chunk::<16>().copied()
}

// The sixteen bytes of a subject, where it has so many and the pieces reach so far.
fn held(state: View<'_>, s: Subject) -> Option<[u8; 16]> {
    match s {
        Subject::Vector(n) => state.vector(n).as_array().copied(),
        Subject::Row(code, addr) => row(state.ds.as_array()?, code, addr),
        Subject::Column(code, addr) => column(state.ds.as_array()?, code, addr),
        Subject::Cells(bank, cell) => cells(state.ds, bank, cell),
        _ => None,
    }
}

// The sixteen bytes of a vector, a row, a column or eight cells.
pub fn bytes_of(state: View<'_>, s: Subject) -> [u8; 16] {
    held(state, s).unwrap_or([0; 16])
}

// The first address of a row or a column, and its stride.
fn access_of(out: Stdout, name: &[u8], way: Way, code: usize, addr: usize) {
    if code < 4 {
        access(out, name, banks::start(way, code, addr), code);
    }
}

fn heading(out: Stdout, s: Subject) {
    match s {
        Subject::Vector(n) => vector_named(out, n),
        Subject::Row(code, addr) => access_of(out, b"row ", Way::Horizontal, code, addr),
        Subject::Column(code, addr) => access_of(out, b"column ", Way::Vertical, code, addr),
        Subject::Cells(bank, cell) => {
            let _ = print!(out; "bank {bank} cell {cell} ");
        }
        _ => {}
    }
}

// The line of what has sixteen bytes.
fn line(out: Stdout, s: Subject, held: &[u8; 16]) {
    heading(out, s);
    bytes(out, held);
    text(out, b"\n");
}

// Every eight cells that are not all 0, or the first eight where there are none such.
fn bank(out: Stdout, b: usize, state: View<'_>) {
    let mut empty = true;
    for group in 0..32 {
        let s = Subject::Cells(b, group * 8);
        let held = bytes_of(state, s);
        if held != [0; 16] {
            line(out, s, &held);
            empty = false;
        }
    }
    if empty {
        line(out, Subject::Cells(b, 0), &[0; 16]);
    }
}

// The line or lines of a subject.
pub fn subject(out: Stdout, s: Subject, state: View<'_>) {
    match s {
        Subject::Word(kind, n) => registers::word(out, kind, n, state.word(kind, n)),
        Subject::Bank(b) => bank(out, b, state),
        _ => line(out, s, &bytes_of(state, s)),
    }
}
