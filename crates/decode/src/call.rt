// The public call `decode`.
ghost use Rattle.std.specs.Prelude.{◌≡◌};
ghost use Rattle.ladder.specs.Refusals.{decode_refusal};
ghost use Rattle.loose.specs.PlanOf.{plan_of};
ghost use Rattle.refusal.specs.Answers.{refusal_of};
ghost use Rattle.decode.specs.Promise.{DecodePromise};

use judge::loose_refusal;
use loose::Plan;
use refusal::Refusal;
use refuse::{shape, values_length};
use values::decode_values;

// The refusal of decode: 1, 2, 3, 5, 6.
fn decode_refusal(plan: &Plan, values: &[u64]) -> Result<(), Refusal>
    ensures { refusal_of result ≡ decode_refusal (plan_of plan.now) values.now }
{
    loose_refusal(plan, |d, l| shape(values.len(), values_length(d, l)))
}

// Writes the answer row of the plan's last matrix: d values of floor(l / 64) + 1 words each, lowest word first. Where it refuses
// (1, 2, 3, 5, 6), the values are as they came.
#[tactic(auto, using(crate::proofs::Kept::kept_refused, crate::proofs::Kept::kept_accepted))]
pub fn decode(plan: &Plan, values: &mut [u64]) -> Result<(), Refusal>
    ensures { DecodePromise (plan_of plan.now) values.old (refusal_of result) values.new }
{
    decode_refusal(plan, values)?;
    decode_values(plan, values);
    Ok(())
}
