// The public call `plain_run`.
ghost use Rattle.loose.specs.PlanOf.{plan_of};
ghost use Rattle.refusal.specs.Answers.{refusal_of, answer_or};
ghost use Rattle.run.specs.Promise.{PlainPromise, no_run};

use crate::steps::plain_steps;
use loose::Plan;
use refusal::Refusal;
use registers::run_by_steps;
use run::Ran;

// The plain run of a plan: leaves the d + 1 end registers, register i the combination of the elements by row i of the last matrix. Where it
// refuses (1, 2, 3, 5, 6, 7, 8), the registers are as they came.
pub fn plain_run(
    plan: &Plan,
    m: u64,
    elements: &[u64],
    registers: &mut [u64],
) -> Result<Ran, Refusal>
    ensures { PlainPromise (plan_of plan.now) m elements.now registers.old (refusal_of result) (answer_or no_run result) registers.new }
{
    // The parts by themselves, since a closure that captures the plan ensures nothing.
    let Plan { d, l, bits, .. } = *plan;
    run_by_steps(plan, m, elements, registers, |m, start| {
        plain_steps(m, d as usize, l as usize, bits, start)
    })
}
