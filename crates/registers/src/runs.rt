// A run of any kind: what the plain run and the difference run share.
ghost use Rattle.std.specs.Prelude.{◌≡◌, List, ℕ};
ghost use Rattle.ladder.specs.Refusals.{run_refusal};
ghost use Rattle.loose.specs.PlanOf.{plan_of};
ghost use Rattle.refusal.specs.Answers.{refusal_of, answer_or};
ghost use Rattle.run.specs.Promise.{RunPromise, no_run};
ghost use Rattle.registers.specs.Inner.{CanStep, StepsTo};

use crate::judging::run_refusal;
use crate::modular::Modulus;
use crate::start::start_registers;
use crate::words::Registers;
use loose::Plan;
use refusal::Refusal;
use run::Ran;

// Refuses (1, 2, 3, 5, 6, 7, 8), or makes the start registers, has `steps` take them through all steps, and leaves the d + 1 end registers:
// l steps are l doublings and l times d additions.
#[tactic(auto, using(crate::proofs::Ran::in_bounds))]
pub fn run_by_steps<F: FnOnce(Modulus, Registers) -> Registers>(
    plan: &Plan,
    m: u64,
    elements: &[u64],
    registers: &mut [u64],
    steps: F,
) -> Result<Ran, Refusal>
    requires { CanStep (F.pre steps) (plan_of plan.now) m elements.now registers.old }
    ensures { (wanted : List ℕ) → StepsTo (F.post steps) (plan_of plan.now) m elements.now registers.old wanted
        → RunPromise (plan_of plan.now) (run_refusal (plan_of plan.now) m elements.now registers.old) registers.old wanted (refusal_of result) (answer_or no_run result) registers.new }
{
    run_refusal(plan, m, elements, registers)?;
    let m = Modulus::new(m);
    let end = steps(m, start_registers(m, plan.start, elements));
    registers.copy_from_slice(&end.words[..plan.d as usize + 1]);
    Ok(Ran {
        answer: end.words[plan.row as usize - 1],
        doublings: plan.l,
        additions: plan.l * plan.d,
    })
}
