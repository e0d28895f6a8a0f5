// The lines of a plan.
ghost use Rattle.std.specs.Prelude.{◌≡◌, ◌++◌};
ghost use Rattle.ladder.specs.Listing.{plan_text};
ghost use Rattle.loose.specs.PlanOf.{plan_of};
ghost use Rattle.text.specs.Inner.{Listable, Room};

use crate::lines::Lines;
use loose::Plan;

impl Lines {
    // The lines of a plan that is not refused.
    #[tactic(auto, using(crate::proofs::PlanLines::lining), unfolding(ladder::specs::Listing::plan_text))]
    pub fn plan_lines(&mut self, plan: &Plan)
        requires { Listable (plan_of plan.now) × Room self.old (plan_text (plan_of plan.now)) }
        ensures { self.new ≡ self.old ++ plan_text (plan_of plan.now) }
    {
        self.plan_line(plan);
        self.start_line(plan);
        self.step_lines(plan);
        self.value_line(plan);
    }
}
