// The lines of a listing, in an array with room for the longest. An inside, for the crates of this repository: what is listed was judged
// before.
#![tactic(auto)]

mod decimal;
mod decoded;
mod hexadecimal;
mod lines;
mod opening;
mod plans;
mod steps;

pub use lines::{LONGEST_TEXT, Lines};
pub use opening::refused_line;
