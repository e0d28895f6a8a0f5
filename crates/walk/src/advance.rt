// One step of the walk.
ghost use Rattle.std.specs.Prelude.{◌≡◌};
ghost use Rattle.ladder.specs.Walk.{step_walk};
ghost use Rattle.walk.specs.WalkState.{walk_state};
ghost use Rattle.bits.specs.Ready.{Ready};

use crate::state::Walk;
use bits::{next_order, next_signs};

// The walk after a step with the bits in r, from a walk state that was judged before.
pub fn advance(w: Walk, r: u64) -> Walk
    requires { Ready (walk_state w) }
    ensures { walk_state result ≡ step_walk (walk_state w) r }
{
    let d = w.d as usize;
    let old = w.order;
    let before = w.signs;
    let order = next_order(d, old, r);
    let signs = next_signs(d, before, order, r);
    Walk {
        d: w.d,
        order,
        signs,
    }
}
