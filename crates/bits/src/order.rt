// The order after a step.
ghost use Rattle.std.specs.Prelude.{◌≡◌, ◌++◌, ◌-◌, ◌≤◌, take, replicate};
ghost use Rattle.ladder.specs.Matrix.{step_order};
ghost use Rattle.ladder.specs.Walk.{bits_of};

use crate::number::{bit, ones_in};

// The new order's place k: where bit k is 1, the old order's place x after falling; where it is 0, its place y before growing.
// After k bits y is x + k. Places past d are 0.
#[tactic(auto, using(crate::proofs::Filling::filling))]
pub fn next_order(d: usize, old: [u8; 8], r: u64) -> [u8; 8]
    requires { d ≤ 8 }
    ensures { result ≡ step_order (take d old) (bits_of d r) ++ replicate (8 - d) 0 }
{
    let mut new = [0; 8];
    let mut x = ones_in(d, r);
    for k in 0..d {
        let b = bit(d, r, k) as usize;
        x -= b;
        new[k] = old[x + k * (1 - b)];
    }
    new
}
