// The listing of a plan file, as text in a lent buffer. The public call is `listing`.
#![tactic(auto)]

mod call;

pub use call::{LONGEST_FILE, listing};
pub use text::LONGEST_TEXT;
