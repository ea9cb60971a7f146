// Sixteen components at a time: what an operation hands back, its flags packed into one word, and the operations that move components and
// compute nothing. The loops that compute are in the crate `loops`.
#![tactic(auto)]

pub mod moves; // moves.rt: mov, vmov, mov from $vc, and one byte sixteen times
pub mod packed; // packed.rt: the flags of sixteen components, packed into one word, and how many are set
pub mod shuffle; // shuffle.rt: vswz

// A result whose flags are not packed yet: component i's zero flag is set where tested[i] is 0, its sign flag is bit 7 of tops[i].
// So flags cost nothing where they are not written. What is clipped is counted always.
#[derive(Clone, Copy)]
pub struct Unpacked {
    pub bytes: [u8; 16],
    pub tested: [u8; 16],
    pub tops: [u8; 16],
    pub clipped: u8,
}

// The flags alone, where no register is written.
#[derive(Clone, Copy)]
pub struct Flags {
    pub signs: u16,
    pub zeros: u16,
}
