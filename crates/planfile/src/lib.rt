// The plan file: pack, unpack, the body, and the plan that a file holds. These are public; the rest is an inside of the library.
#![tactic(auto)]

mod packing;
mod trailer;
mod unpacking;
mod whole;

pub use packing::pack;
pub use refuse::TRAILER_SIZE;
pub use unpacking::{Unpacked, body, unpack};
pub use whole::held_plan;
