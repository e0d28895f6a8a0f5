// The walk state and its step. The public call is `step` of a walk state: it takes anything, and refuses by the table.
#![tactic(auto)]

mod advance;
mod judging;
mod state;
mod step;

pub use state::Walk;
pub use step::Unstepped;
