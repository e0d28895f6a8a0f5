// The calls of the plan library for C and for Rust: each under the name `immarduzh_` and the call's own. Each takes any input and finishes.
// It answers the refusal number, 0 where nothing is refused; further answers are written through references, on refusal as 0, but for a walk's
// order and signs, which then stay. Nothing is judged here.
//
// By hand, for the C interface: a plan's five parts stand apart, and the two runs are two functions.
#![tactic(auto)]

pub mod encoding;
pub mod files;
pub mod reading;
pub mod runs;
pub mod walking;
