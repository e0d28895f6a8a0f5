// The public call `step`.
ghost use Rattle.std.specs.Prelude.{◌≡◌};
ghost use Rattle.walk.specs.Promise.{StepPromise};
ghost use Rattle.walk.specs.Stepped.{step_number, walk_answered};

use crate::advance::advance;
use crate::judging::step_refusal;
use crate::state::Walk;
use refusal::Refusal;

// What a refused step answers: why, and the walk state that was handed in.
#[derive(Clone, Copy, Debug, PartialEq, Eq)]
pub struct Unstepped {
    pub refusal: Refusal,
    pub walk: Walk,
}

impl From<Unstepped> for Refusal {
    fn from(unstepped: Unstepped) -> Refusal
        ensures { result ≡ unstepped.refusal }
    {
        unstepped.refusal
    }
}

impl Walk {
    // One step of a paused walk, with the bits as one number, the first of weight 2^(d-1). Where it refuses (1, 5, 3), it hands the state
    // back.
    #[tactic(auto, using(crate::proofs::Kept::kept_refused, crate::proofs::Kept::kept_accepted))]
    pub fn step(self, bits: u64) -> Result<Walk, Unstepped>
        ensures { StepPromise self bits (step_number result) (walk_answered result) }
    {
        match step_refusal(self, bits) {
            Ok(()) => Ok(advance(self, bits)),
            Err(refusal) => Err(Unstepped {
                refusal,
                walk: self,
            }),
        }
    }
}
