// What one line of a listing, or of a file of expected values, asks for: docs/LISTING.md has the forms. A line is given as its texts with one space
// between two, without comment and line feed. Nothing here knows a state.
#![tactic(auto)]

pub mod bytes; // bytes.rt: bytes and numbers that stand in a line
mod compared; // compared.rt: the lines of EXPECTED that are compared
pub mod cursor; // cursor.rt: the texts of a line, one after the other
mod dots; // dots.rt: the lines that begin with a dot
pub mod fields; // fields.rt: the parts of registers, with their bits
mod parts; // parts.rt: a register's word and its parts
pub mod read; // read.rt: what a line asks for
mod register; // register.rt: which register a text is
mod shown; // shown.rt: what can be shown, and compared
mod steps; // steps.rt: an instruction and its side inputs
pub mod tell; // tell.rt: the words of what is wrong
mod value; // value.rt: numbers and their bounds
mod wanted; // wanted.rt: what was expected
pub mod word; // word.rt: the line of a word

use bytes::Bytes;
pub use wanted::Wanted;

// An instruction word, its side index and its side mask word.
#[derive(Clone, Copy, PartialEq, Eq)]
pub struct Triple {
    pub word: u32,
    pub side: u32,
    pub mask: u32,
}

// The registers that are words of 32 bits.
#[derive(Clone, Copy, PartialEq, Eq)]
pub enum Kind {
    A,
    R,
    C,
    Vc,
}

// The parts of these registers that have names; Whole is all bits, which have none.
#[derive(Clone, Copy, PartialEq, Eq)]
pub enum Field {
    Addr,
    Limit,
    Stride,
    Sign,
    Zero,
    End,
    Signs,
    Zeros,
    Whole,
}

// Bits of the register n of a kind: those of mask have this value, in their places.
#[derive(Clone, Copy, PartialEq, Eq)]
pub struct Part {
    pub kind: Kind,
    pub n: usize,
    pub mask: u32,
    pub value: u32,
}

// What can be shown: a register, or bytes of the store. Row and Column have the stride code, 0 to 3, and the address; Cells the bank and the first cell.
#[derive(Clone, Copy, PartialEq, Eq)]
pub enum Subject {
    Word(Kind, usize),
    Vector(usize),
    Row(usize, usize),
    Column(usize, usize),
    Bank(usize),
    Cells(usize, usize),
}

// What a line of a listing asks for. SetVector has the register and its bytes; Bytes the stride code, the first address, and the bytes.
#[derive(Clone, Copy)]
pub enum Order<'a> {
    Step(Triple),
    Set(Part),
    SetVector(usize, [u8; 16]),
    Bytes(usize, usize, Bytes<'a>),
    FillBank,
    FillAddress(usize),
    FillByte(u8),
    Show(Subject),
    Budget(u32),
}

// What a line that is compared expects.
#[derive(Clone, Copy)]
pub enum Expected {
    Part(Part),
    Sixteen(Subject, [u8; 16]),
    Answer(u32),
    Steps(u32),
    Cells(u32),
    Clipped(u32),
    Banks([u32; 16]),
}

// Where in the line something is wrong, and what was expected.
#[derive(Clone, Copy, PartialEq, Eq)]
pub struct Fault {
    pub from: usize,
    pub to: usize,
    pub wanted: Wanted,
}
