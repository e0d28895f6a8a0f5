// How a program reads its input, takes the numbers of its requests from it, and writes its lines.
#![tactic(auto)]

pub mod line;
pub mod numbers;
pub mod part;
pub mod show;
pub mod stream;
