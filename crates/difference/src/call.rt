// The public call `difference_run`. It and `plain_run` stay two: each is a call with a promise of its own, and what they share is `run_by_steps`.
ghost use Rattle.loose.specs.PlanOf.{plan_of};
ghost use Rattle.refusal.specs.Answers.{refusal_of, answer_or};
ghost use Rattle.run.specs.Promise.{DifferencePromise, no_run};

use crate::steps::difference_steps;
use loose::Plan;
use refusal::Refusal;
use registers::run_by_steps;
use run::Ran;

// The difference run of a plan: leaves the registers that its own rule defines, with no use of register y in an addition. Where it refuses
// (1, 2, 3, 5, 6, 7, 8), the registers are as they came.
pub fn difference_run(
    plan: &Plan,
    m: u64,
    elements: &[u64],
    registers: &mut [u64],
) -> Result<Ran, Refusal>
    ensures { DifferencePromise (plan_of plan.now) m elements.now registers.old (refusal_of result) (answer_or no_run result) registers.new }
{
    // The parts by themselves, since a closure that captures the plan ensures nothing.
    let Plan {
        d,
        l,
        start,
        bits,
        ..
    } = *plan;
    run_by_steps(plan, m, elements, registers, |m, first| {
        difference_steps(m, d, l as usize, start, bits, elements, first)
    })
}
