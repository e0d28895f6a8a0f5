// The lines that a listing opens with: of a plan its numbers and its order, else the refusal.
ghost use Rattle.std.specs.Prelude.{◌≡◌, ◌++◌};
ghost use Rattle.ladder.specs.Listing.{plan_line, start_line, refused_text};
ghost use Rattle.loose.specs.PlanOf.{plan_of};
ghost use Rattle.text.specs.Inner.{Room};

use crate::lines::Lines;
use loose::Plan;

impl Lines {
    // `plan` d l row.
    #[tactic(auto, using(crate::proofs::Spelled::spelled))]
    pub(crate) fn plan_line(&mut self, plan: &Plan)
        requires { Room self.old (plan_line (plan_of plan.now)) }
        ensures { self.new ≡ self.old ++ plan_line (plan_of plan.now) }
    {
        self.bytes(b"plan");
        self.number(plan.d);
        self.number(plan.l);
        self.number(plan.row);
        self.byte(b'\n');
    }

    // `start` and the order.
    #[tactic(auto, using(crate::proofs::Spelled::spelled, crate::proofs::Fields::fielding))]
    pub(crate) fn start_line(&mut self, plan: &Plan)
        requires { Room self.old (start_line (plan_of plan.now)) }
        ensures { self.new ≡ self.old ++ start_line (plan_of plan.now) }
    {
        self.bytes(b"start");
        for column in plan.start {
            self.number(u64::from(*column));
        }
        self.byte(b'\n');
    }
}

// `refused` and the number.
#[tactic(auto, using(crate::proofs::Spelled::spelled, crate::proofs::DecimalDigits::decimal_short), unfolding(ladder::specs::Numbers::longest_text))]
pub fn refused_line(n: u64) -> Lines
    ensures { result ≡ refused_text n }
{
    let mut lines = Lines::new();
    lines.bytes(b"refused");
    lines.number(n);
    lines.byte(b'\n');
    lines
}
