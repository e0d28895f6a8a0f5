// The answer row of a plan's last matrix, as words, by a walk of orders and signs. An inside, for the crates of this repository: the
// functions ask that what they get was judged before.
#![tactic(auto)]

mod answer;
mod digits;
mod lower;
mod rows;
mod stored;

pub use answer::decode_values;
pub use stored::value_words;
