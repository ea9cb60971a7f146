// Translation of data store addresses, and the address lists of accesses.
#![tactic(auto)]

ghost use Rattle.std.specs.Prelude.{◌≡◌, ◌<◌};
ghost use Rattle.std.specs.Int.Bits.{bit_or};
ghost use Rattle.banks.specs.Bank.{turn_of, bank_of};
ghost use Rattle.banks.specs.Line.{start_of, step_of};
ghost use Rattle.banks.specs.Inner.Access.{cells_of};

use terms::Way;

// k of document 01, by stride code: the address shifted to the right by the first number, then masked by the second; of its thirteen bits only
// code 0's mask drops any. (A code is a number below 4 and no type of its own: it is two bits of a word, and the definitions go by numbers.)
const TURNS: [(u8, u8); 4] = [(5, 0x07), (5, 0xff), (6, 0x7f), (7, 0x3f)];

// What the low four bits of an address are moved on by.
#[tactic(auto, using(crate::proofs::Masks::turn_table))]
fn turn(code: usize, addr: usize) -> usize
    requires { (code < 4) × (addr < 8192) }
    ensures { result ≡ turn_of code addr }
{
    let (shift, mask) = TURNS[code];
    addr >> shift & usize::from(mask)
}

#[tactic(auto, using(crate::proofs::Masks::turn_le), unfolding(crate::specs::Bank::bank_of))]
pub fn bank(code: usize, addr: usize) -> usize
    requires { (code < 4) × (addr < 8192) }
    ensures { result ≡ bank_of code addr }
{
    (addr + turn(code, addr)) % 16
}

// The first address of an access.
#[tactic(auto, using(crate::proofs::Masks::row_mask, crate::proofs::Masks::column_mask, crate::proofs::Masks::word_mask), unfolding(crate::specs::Line::start_of))]
pub fn start(way: Way, code: usize, addr: usize) -> usize
    requires { code < 4 }
    ensures { result ≡ start_of way code addr }
{
    match way {
        Way::Horizontal => addr & 0x1ff0,
        Way::Vertical => addr & (0x1fff ^ 0xf0 << code),
        Way::Scalar => addr & 0x1ffc,
    }
}

// How far apart its addresses are.
#[tactic(auto, using(crate::proofs::Masks::stride_shift), unfolding(crate::specs::Line::step_of))]
pub fn step(way: Way, code: usize) -> usize
    requires { code < 4 }
    ensures { result ≡ step_of way code }
{
    match way {
        Way::Vertical => 16 << code,
        Way::Horizontal | Way::Scalar => 1,
    }
}

// How many cells it enters: cells_are of proofs/Counts says that they are the distinct pairs of its address list.
#[tactic(auto, using(crate::proofs::Masks::column_cells), unfolding(crate::specs::Inner::Access::cells_of))]
pub fn cells(way: Way, code: usize) -> u64
    ensures { result ≡ cells_of way code }
{
    match way {
        Way::Vertical if code == 0 => 8,
        Way::Horizontal | Way::Vertical => 16,
        Way::Scalar => 4,
    }
}

// The address of ld and st: the addr field OR the immediate.
pub fn joined(addr: u16, uimm: u16) -> u16
    ensures { result ≡ bit_or addr uimm }
{
    addr | uimm
}
