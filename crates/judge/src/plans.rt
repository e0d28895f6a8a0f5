// The refusal of a plan that is read.
ghost use Rattle.std.specs.Prelude.{◌≡◌, ℕ, length};
ghost use Rattle.ladder.specs.Numbers.{bits_length};
ghost use Rattle.ladder.specs.Refusals.{read_refusal, loose_refusal};
ghost use Rattle.loose.specs.PlanOf.{plan_of};
ghost use Rattle.refusal.specs.Answers.{refusal_of};
ghost use Rattle.refuse.specs.Inner.{InRange};
ghost use Rattle.judge.specs.Inner.{Gives};

use loose::Plan;
use refusal::Refusal;
use refuse::{bits_length, shape};

// What a plan whose shapes are right must be besides, whether it is lent or stands in a file: 5, 6. It is handed the whole plan, though no
// number looks at l or the bits.
#[tactic(auto, unfolding(ladder::specs::Refusals::read_refusal), using(refusal::proofs::Laws::then_refused, refusal::proofs::Laws::then_passed))]
pub fn read_refusal(plan: &Plan) -> Result<(), Refusal>
    requires { InRange plan.now.d plan.now.l × (length plan.now.bits.now ≡ bits_length plan.now.d plan.now.l) }
    ensures { refusal_of result ≡ read_refusal (plan_of plan.now) }
{
    refuse::order(plan.d, plan.start)?;
    refuse::answer(plan.d, plan.row)
}

// A loose plan: 1, 2, 3, 5, 6. Number 3 covers its own buffers, and then what a call is lent beside it: `others` judges that by d and l, once
// these are in range.
pub fn loose_refusal<F: FnOnce(u64, u64) -> Result<(), Refusal>>(
    plan: &Plan,
    others: F,
) -> Result<(), Refusal>
    requires { InRange plan.now.d plan.now.l → F.pre others plan.now.d plan.now.l }
    ensures { (n : ℕ) → Gives (F.post others plan.now.d plan.now.l) (plan_of plan.now) n
        → refusal_of result ≡ loose_refusal (plan_of plan.now) n }
{
    refuse::range(plan.d, plan.l)?;
    shape(plan.start.len(), plan.d)?;
    shape(plan.bits.len(), bits_length(plan.d, plan.l))?;
    others(plan.d, plan.l)?;
    read_refusal(plan)
}
