// The walk through a plan: the lower of each column's two numbers, digit by digit.
ghost use Rattle.std.specs.Prelude.{◌≡◌};
ghost use Rattle.ladder.specs.Refusals.{decode_refusal};
ghost use Rattle.loose.specs.PlanOf.{plan_of};
ghost use Rattle.values.specs.Inner.{Lowered};

use crate::digits::step_digits;
use crate::stored::{store_full, store_words, value_words};
use bits::step_bits;
use judge::start_walk;
use loose::Plan;

// Leaves the lower numbers in words, and gives back the order after the last step. The top word has no digit of its own where 64
// divides l, so it is cleared first.
pub fn lower_values(plan: &Plan, values: &mut [u64]) -> [u8; 8]
    requires { decode_refusal (plan_of plan.now) values.old ≡ 0 }
    ensures { Lowered (plan_of plan.now) result values.new }
{
    let d = plan.d as usize;
    let l = plan.l as usize;
    let k = value_words(l);
    let mut words = [0u64; 8];
    let held = &mut words[..d];
    store_words(held, k, l / 64, values);
    // By themselves, so that they are read once: words are written between two steps.
    let bits = plan.bits;
    let mut order = start_walk(plan.d, plan.start).order;
    for step in 0..l {
        let r = step_bits(bits, d, step);
        // By hand: a call may not lay an array in a variable that holds one (not covered)
        let next = step_digits(order, d, r, held);
        order = next;
        store_full(held, k, l - 1 - step, values);
    }
    order
}
