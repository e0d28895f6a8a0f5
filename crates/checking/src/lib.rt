// Check: whether the answer row of a plan's last matrix is the scalars. The public call is `check`; the rest is an inside of it.
#![tactic(auto)]

mod call;
mod row;
mod same;

pub use call::check;
