// The trace of a plan. The public call is `trace`: it takes anything, and refuses by the table.
#![tactic(auto)]

mod block;
mod call;
mod entry;
mod steps;

pub use call::trace;
pub use steps::Traced;
