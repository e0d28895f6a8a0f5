// The line of the decoded values.
ghost use Rattle.std.specs.Prelude.{◌≡◌, ◌++◌};
ghost use Rattle.ladder.specs.Listing.{value_line};
ghost use Rattle.loose.specs.PlanOf.{plan_of};
ghost use Rattle.text.specs.Inner.{Listable, Room};

use crate::lines::Lines;
use loose::Plan;
use values::{decode_values, value_words};

impl Lines {
    // Decodes the plan, which is not refused, into the most words that there can be, and appends the line of its values.
    #[tactic(auto, using(crate::proofs::Spelled::spelled, crate::proofs::Fields::fielding))]
    pub(crate) fn value_line(&mut self, plan: &Plan)
        requires { Listable (plan_of plan.now) × Room self.old (value_line (plan_of plan.now)) }
        ensures { self.new ≡ self.old ++ value_line (plan_of plan.now) }
    {
        let words = value_words(plan.l as usize);
        let mut room = [0u64; 80];
        let values = &mut room[..plan.d as usize * words];
        decode_values(plan, values);
        self.bytes(b"value");
        for value in values.chunks_exact(words) {
            self.byte(b' ');
            self.hexadecimal(value);
        }
        self.byte(b'\n');
    }
}
