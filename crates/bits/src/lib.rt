// A plan's bits, step by step, and what a step does to an order and to signs in plain arrays. An inside, for the crates of this
// repository: the functions ask that what they get was judged before.
#![tactic(auto)]

mod number;
mod order;
mod read;
mod signs;

pub use number::{bit, ones_in};
pub use order::next_order;
pub use read::step_bits;
pub use signs::{next_signs, signed_byte};
