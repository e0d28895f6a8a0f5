// Decode: the answer row of a plan's last matrix. The public call is `decode`.
#![tactic(auto)]

mod call;

pub use call::decode;
