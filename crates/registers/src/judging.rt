// The refusal of a run.
ghost use Rattle.std.specs.Prelude.{◌≡◌};
ghost use Rattle.ladder.specs.Refusals.{run_refusal};
ghost use Rattle.loose.specs.PlanOf.{plan_of};
ghost use Rattle.refusal.specs.Answers.{refusal_of};

use judge::loose_refusal;
use loose::Plan;
use refusal::Refusal;
use refuse::{element, shape, too_large};

// A loose plan's refusal, with an element for each column and a register for each row beside it, then 7, 8. The elements are looked at only
// where the plan is right.
#[tactic(auto, unfolding(ladder::specs::Refusals::run_refusal), using(refusal::proofs::Laws::then_refused, refusal::proofs::Laws::then_passed))]
pub fn run_refusal(plan: &Plan, m: u64, elements: &[u64], registers: &[u64]) -> Result<(), Refusal>
    ensures { refusal_of result ≡ run_refusal (plan_of plan.now) m elements.now registers.now }
{
    loose_refusal(plan, |d, _| {
        shape(elements.len(), d)?;
        shape(registers.len(), d + 1)
    })?;
    too_large(m)?;
    element(m, elements)
}
