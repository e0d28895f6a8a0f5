// When a call refuses: the length of each buffer, and a function for each number of the table that needs no plan and no file. An inside, for
// the crates of this repository. The functions take anything, but the lengths ask that d and l were judged before.
#![tactic(auto)]

mod elements;
mod lengths;
mod orders;
mod ranges;
mod table;

pub use lengths::{
    TRAILER_SIZE, bits_length, file_length, scalars_length, trace_length, values_length,
};
pub use orders::arrangement;
pub use table::{answer, dim, element, order, range, shape, too_large, unless};
