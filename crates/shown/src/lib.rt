// What is shown of a state and of a step on standard output: docs/LISTING.md fixes every byte. Nothing is asked of numbers and of the lengths of slices: where they are those
// of no register and of no byte of the store, a 0 or nothing stands for it.
#![tactic(auto)]

pub mod cells; // cells.rt: the addresses and cells of the store's bytes
pub mod changes; // changes.rt: what a step changed
pub mod figures; // figures.rt: numbers and bytes
pub mod parts; // parts.rt: the parts of registers
pub mod phrases; // phrases.rt: places, refusals, answers and steps in words
pub mod places; // places.rt: what a place's number stands for
pub mod registers; // registers.rt: registers, as the last part shows them
pub mod state; // state.rt: a state of the two units
pub mod subjects; // subjects.rt: what .show lines ask for
pub mod total; // total.rt: how a run ended
pub mod view; // view.rt: six pieces of any lengths
