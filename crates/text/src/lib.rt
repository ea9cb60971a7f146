// What the programs share that read and write text.
#![tactic(auto)]

pub mod args; // args.rt: the arguments of a program
pub mod count; // count.rt: what fits
pub mod find; // find.rt: where something stands in a text
pub mod input; // input.rt: what is read of a file
pub mod number; // number.rt: what number a text is
pub mod print; // print.rt: what is written to standard output
pub mod quote; // quote.rt: a text of the input, shown
pub mod say; // say.rt: what is said on standard error, and the status
pub mod squeeze; // squeeze.rt: a line with one space for its blanks
