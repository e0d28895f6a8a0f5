// What a run of a plan answers. The public calls stand in the crates `plain` and `difference`; what they promise stands here.
#![tactic(auto)]

mod answer;

pub use answer::Ran;
