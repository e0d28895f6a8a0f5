// The public call `trace`.
ghost use Rattle.std.specs.Prelude.{◌≡◌};
ghost use Rattle.ladder.specs.Refusals.{trace_refusal};
ghost use Rattle.loose.specs.PlanOf.{plan_of};
ghost use Rattle.refusal.specs.Answers.{refusal_of, answer_or};
ghost use Rattle.trace.specs.Promise.{TracePromise, no_trace};

use crate::steps::{Traced, trace_steps};
use judge::{loose_refusal, start_walk};
use loose::Plan;
use refusal::Refusal;
use refuse::{shape, trace_length};

// The refusal of trace: 1, 2, 3, 5, 6.
fn trace_refusal(plan: &Plan, out: &[u8]) -> Result<(), Refusal>
    ensures { refusal_of result ≡ trace_refusal (plan_of plan.now) out.now }
{
    loose_refusal(plan, |d, l| shape(out.len(), trace_length(d, l)))
}

// Writes the trace of a plan: for each step its doubling and its d additions, each x, y and the difference of the two rows. Where it
// refuses (1, 2, 3, 5, 6), the buffer is as it came.
#[tactic(auto, using(crate::proofs::Kept::starts))]
pub fn trace(plan: &Plan, out: &mut [u8]) -> Result<Traced, Refusal>
    ensures { TracePromise (plan_of plan.now) out.old (refusal_of result) (answer_or no_trace result) out.new }
{
    trace_refusal(plan, out)?;
    let start = start_walk(plan.d, plan.start);
    Ok(trace_steps(start, plan.bits, 0, plan.l, out))
}
