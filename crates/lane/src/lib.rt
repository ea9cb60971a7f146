// What an operation makes of one component: small functions that the loops over sixteen components call, in forms that the compiler turns into
// vector code there. Here stand the operations that a table names.
#![tactic(auto)]

pub mod clamp; // clamp.rt: a component kept between two bounds, and the lesser of two magnitudes
pub mod compare; // compare.rt: how far two components are apart
pub mod nine; // nine.rt: the sum of a byte and a nine-bit number
pub mod scalar; // scalar.rt: vmin, vmax, vabs, vneg, vadd and vsub
pub mod select; // select.rt: one of two bytes
pub mod shifts; // shifts.rt: one shift

#[derive(Clone, Copy)]
pub enum Calc {
    Min,
    Max,
    Abs,
    Neg,
    Add,
    Sub,
}

#[derive(Clone, Copy)]
pub enum Logic {
    And,
    Xor,
    Or,
}
