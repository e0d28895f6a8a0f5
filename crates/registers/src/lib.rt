// What the runs share: words by a modulus, the start registers, the refusal and the answer. An inside, for the crates of this
// repository: most of its functions ask that what they get was judged before.
#![tactic(auto)]

mod judging;
mod modular;
mod runs;
mod start;
mod words;

pub use judging::run_refusal;
pub use modular::Modulus;
pub use runs::run_by_steps;
pub use start::start_registers;
pub use words::Registers;
