// The plain run of a plan over words by a modulus: each addition adds two registers. The public call is `plain_run`; the rest is an inside
// of it.
#![tactic(auto)]

mod call;
mod steps;

pub use call::plain_run;
