// An answer as the rules have it.
ghost use Rattle.std.specs.Prelude.{◌≡◌};
ghost use Rattle.refusal.specs.Answers.{refusal_of, answer_or};

use crate::{OK, Refusal};

// The number of an answer, 0 where nothing is refused, and its value, or what stands for it on refusal: for those who tell both, as the
// calls for C do.
pub fn parts<T: Copy>(answer: Result<T, Refusal>, none: T) -> (u64, T)
    ensures number { result.0 ≡ refusal_of answer }
    ensures value { result.1 ≡ answer_or none answer }
{
    match answer {
        Ok(value) => (OK, value),
        Err(refusal) => (refusal.number(), none),
    }
}
