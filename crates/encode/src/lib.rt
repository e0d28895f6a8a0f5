// The encoder: from scalars to a start order and bits. The public call is `encode`; the rest is an inside of it.
#![tactic(auto)]

mod call;
mod dealing;
mod order;
mod packing;
mod steps;

pub use call::encode;
