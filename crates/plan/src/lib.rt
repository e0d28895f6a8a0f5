// The plan library: every public call. Each takes any input and finishes; it finds bad input itself and answers why it refuses, a line of
// the table. `body` alone answers no refusal: its part is empty instead.
#![tactic(auto)]

pub use checking::check;
pub use decode::decode;
pub use difference::difference_run;
pub use encode::encode;
pub use listing::{LONGEST_FILE, LONGEST_TEXT, listing};
pub use loose::Plan;
pub use plain::plain_run;
pub use planfile::{TRAILER_SIZE, Unpacked, body, held_plan, pack, unpack};
pub use refusal::{OK, Refusal};
pub use run::Ran;
pub use trace::{Traced, trace};
pub use walk::{Unstepped, Walk};
