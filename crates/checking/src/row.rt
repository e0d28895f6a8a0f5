// Whether the answer row of a plan's last matrix is the scalars.
ghost use Rattle.std.specs.Prelude.{◌≡◌};
ghost use Rattle.ladder.specs.Plan.{answer_row};
ghost use Rattle.ladder.specs.Refusals.{check_refusal, same_numbers, scalars_in};
ghost use Rattle.loose.specs.PlanOf.{plan_of};

use crate::same::same_value;
use loose::Plan;
use scalars::scalar_words;
use values::{decode_values, value_words};

// Whether the answer row is the scalars. The plan and the scalars were judged as check judges them. Eight values of ten words are the most
// there can be.
pub fn row_is(plan: &Plan, scalars: &[u64]) -> bool
    requires { check_refusal (plan_of plan.now) scalars.now ≡ 0 }
    ensures { result ≡ same_numbers (answer_row (plan_of plan.now)) (scalars_in plan.now.d plan.now.l scalars.now) }
{
    let l = plan.l as usize;
    let k = value_words(l);
    let n = plan.d as usize * k;
    let mut words = [0u64; 80];
    let values = &mut words[..n];
    decode_values(plan, values);
    let entries = values.chunks_exact(k);
    for (entry, scalar) in entries.zip(scalars.chunks_exact(scalar_words(l))) {
        if !same_value(entry, scalar) {
            return false;
        }
    }
    true
}
