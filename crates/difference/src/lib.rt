// The difference run of a plan over words by a modulus: each addition has one register and a vector. The public call is
// `difference_run`; the rest is an inside of it.
#![tactic(auto)]

mod addition;
mod call;
mod steps;

pub use call::difference_run;
