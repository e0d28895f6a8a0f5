// The public call `check`.
ghost use Rattle.std.specs.Prelude.{◌≡◌, false};
ghost use Rattle.ladder.specs.Refusals.{check_refusal};
ghost use Rattle.loose.specs.PlanOf.{plan_of};
ghost use Rattle.refusal.specs.Answers.{refusal_of, answer_or};
ghost use Rattle.checking.specs.Promise.{CheckPromise};

use crate::row::row_is;
use judge::loose_refusal;
use loose::Plan;
use refusal::Refusal;
use refuse::{scalars_length, shape};
use scalars::scalar_refusal;

// The refusal of check: 1, 2, 3, 5, 6, 4, where 3 covers the start order, the bits and the scalars. These are looked at only where
// the rest is right.
fn check_refusal(plan: &Plan, scalars: &[u64]) -> Result<(), Refusal>
    ensures { refusal_of result ≡ check_refusal (plan_of plan.now) scalars.now }
{
    loose_refusal(plan, |d, l| shape(scalars.len(), scalars_length(d, l)))?;
    scalar_refusal(plan.d as usize, plan.l as usize, scalars)
}

// Says whether the answer row of the plan's last matrix is the d scalars, lent in ceil(l / 64) words each.
#[tactic(auto, using(crate::proofs::Kept::kept_refused, crate::proofs::Kept::kept_accepted))]
pub fn check(plan: &Plan, scalars: &[u64]) -> Result<bool, Refusal>
    ensures { CheckPromise (plan_of plan.now) scalars.now (refusal_of result) (answer_or false result) }
{
    check_refusal(plan, scalars)?;
    Ok(row_is(plan, scalars))
}
