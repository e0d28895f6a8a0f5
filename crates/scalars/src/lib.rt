// Scalars in lent words: how many words, their bits, and number 4 of the table. An inside, for the crates of this
// repository: the functions ask that what they get was judged before.
#![tactic(auto)]

mod in_words;

pub use in_words::{gather, odd_count, scalar_refusal, scalar_words};
