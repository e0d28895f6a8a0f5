// The lines of the steps.
ghost use Rattle.std.specs.Prelude.{◌≡◌, ◌++◌, ◌<◌, map};
ghost use Rattle.ladder.specs.Lists.{joined};
ghost use Rattle.ladder.specs.Plan.{step_bits};
ghost use Rattle.ladder.specs.Listing.{character, step_line};
ghost use Rattle.loose.specs.PlanOf.{plan_of};
ghost use Rattle.text.specs.Inner.{Listable, Room};

use crate::decimal::character;
use crate::lines::Lines;
use bits::{bit, step_bits};
use loose::Plan;

impl Lines {
    // The bits of step s (from 0), the first first.
    #[tactic(auto, using(crate::proofs::StepLines::showing))]
    fn bits(&mut self, plan: &Plan, s: usize)
        requires { Listable (plan_of plan.now) × ((s < plan.now.l) × Room self.old (map character (step_bits (plan_of plan.now) s))) }
        ensures { self.new ≡ self.old ++ map character (step_bits (plan_of plan.now) s) }
    {
        let d = plan.d as usize;
        let r = step_bits(plan.bits, d, s);
        for k in 0..d {
            self.byte(character(bit(d, r, k)));
        }
    }

    // The number of step s (from 0), counted from 1, and its bits.
    #[tactic(auto, using(crate::proofs::Spelled::spelled))]
    fn step_line(&mut self, plan: &Plan, s: usize)
        requires { Listable (plan_of plan.now) × ((s < plan.now.l) × Room self.old (step_line (plan_of plan.now) s)) }
        ensures { self.new ≡ self.old ++ step_line (plan_of plan.now) s }
    {
        self.decimal(s as u64 + 1);
        self.byte(b' ');
        self.bits(plan, s);
        self.byte(b'\n');
    }

    // The lines of steps 1 to l.
    #[tactic(auto, using(crate::proofs::StepLines::stepping))]
    pub(crate) fn step_lines(&mut self, plan: &Plan)
        requires { Listable (plan_of plan.now) × Room self.old (joined plan.now.l (step_line (plan_of plan.now))) }
        ensures { self.new ≡ self.old ++ joined plan.now.l (step_line (plan_of plan.now)) }
    {
        for s in 0..plan.l as usize {
            self.step_line(plan, s);
        }
    }
}
