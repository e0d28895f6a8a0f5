// A plan that is read: what a loose plan and a file must be alike, and a loose plan's whole refusal, in the order in which its numbers come;
// and the walk state that a plan starts with. An inside, for the crates of this repository.
#![tactic(auto)]

mod plans;
mod start;

pub use plans::{loose_refusal, read_refusal};
pub use start::start_walk;
