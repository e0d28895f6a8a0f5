// One step of the walk, with its entries.
ghost use Rattle.std.specs.Prelude.{◌≡◌, map, pred, ◌+◌, ◌*◌, length, take};
ghost use Rattle.ladder.specs.Walk.{bits_of, step_walk};
ghost use Rattle.ladder.specs.Trace.{trace_bytes};
ghost use Rattle.walk.specs.WalkState.{walk_state};
ghost use Rattle.bits.specs.Ready.{Ready};
ghost use Rattle.bits.specs.WalkBlock.{walk_block};

use crate::entry::write_entry;
use bits::{bit, ones_in};
use walk::Walk;

// Writes the doubling and the d additions of a step with the bits in r, d + 2 bytes each, and answers the walk after the step. The
// vectors are made of the signs before it: each addition fills in one more, of the column at the next place of the new order.
#[tactic(auto, unfolding(walk::specs::WalkState::walk_state), using(crate::proofs::StepBlocks::walking))]
pub fn write_block(w: Walk, r: u64, out: &mut [u8]) -> Walk
    requires { Ready (walk_state w) × (length out.old ≡ (w.d + 1) * (w.d + 2)) }
    ensures { (walk_state result ≡ step_walk (walk_state w) r) × (out.new ≡ trace_bytes (walk_block w.d (take w.d w.signs) (map pred (take w.d result.order)) (bits_of w.d r))) }
{
    let d = w.d as usize;
    let size = d + 2;
    let mut vector = [0; 8];
    let mut order = [0; 8];
    let mut signs = [0; 8];
    let mut x = ones_in(d, r);
    write_entry(d, x, x, vector, &mut out[..size]);
    // By index: of what is written through `chunks_mut` a proof knows the length alone.
    for k in 0..d {
        let b = bit(d, r, k) as usize;
        x -= b;
        let c = w.order[x + k * (1 - b)];
        order[k] = c;
        let j = c as usize - 1;
        let s = w.signs[j];
        signs[j] = if b == 1 { -s } else { s };
        vector[j] = s;
        let at = (k + 1) * size;
        write_entry(d, x, x + k + 1, vector, &mut out[at..at + size]);
    }
    Walk {
        d: w.d,
        order,
        signs,
    }
}
