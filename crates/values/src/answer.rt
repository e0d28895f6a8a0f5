// The answer row, by a walk.
ghost use Rattle.std.specs.Prelude.{◌≡◌};
ghost use Rattle.ladder.specs.Plan.{values_in};
ghost use Rattle.ladder.specs.Refusals.{decode_refusal};
ghost use Rattle.loose.specs.PlanOf.{plan_of};

use crate::lower::lower_values;
use crate::rows::{columns_above, raise};
use crate::stored::value_words;
use loose::Plan;

// Leaves in words the entries of the answer row of the plan's last matrix. The plan and the buffer were judged as decode judges them.
pub fn decode_values(plan: &Plan, values: &mut [u64])
    requires { decode_refusal (plan_of plan.now) values.old ≡ 0 }
    ensures { values.new ≡ values_in (plan_of plan.now) }
{
    let order = lower_values(plan, values);
    let row = plan.row as usize - 1;
    let above = columns_above(order, row);
    raise(values, plan.d as usize, value_words(plan.l as usize), above);
}
