// Where a plan's walk starts.
ghost use Rattle.std.specs.Prelude.{pred, ◌≤◌, ◌≡◌, map};
ghost use Rattle.ladder.specs.Matrix.{OrderOk, start_signs};
ghost use Rattle.ladder.specs.Walk.{walk_of};
ghost use Rattle.walk.specs.WalkState.{walk_state};

use walk::Walk;

// The walk state before the first step: the start order, and all signs +1.
pub fn start_walk(d: u64, start: &[u8]) -> Walk
    requires { (d ≤ 8) × OrderOk d start.now }
    ensures { walk_state result ≡ walk_of d (map pred start.now) (start_signs d) }
{
    let mut order = [0; 8];
    order[..start.len()].copy_from_slice(start);
    let mut signs = [0; 8];
    signs[..start.len()].fill(1);
    Walk { d, order, signs }
}
