// The operations that compute, sixteen components at a time: a module for each family. Each takes its sources by value, hands its result back by
// value, and takes each component by a function of the crate `lane`.
#![tactic(auto)]

pub mod arithmetic; // arithmetic.rt: vmin, vmax, vabs, vneg, vadd and vsub
pub mod bitwise; // bitwise.rt: vbitop, vand, vxor and vor
pub mod clamp; // clamp.rt: vclip and vminabs
pub mod compare; // compare.rt: vcmpad
mod each; // each.rt: a function of two components over sixteen of them
pub mod nine; // nine.rt: vadd9
mod select; // select.rt: the words of two sources
pub mod shifts; // shifts.rt: vsar and vshr
