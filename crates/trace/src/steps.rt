// The trace of a range of a walk's steps.
ghost use Rattle.std.specs.Prelude.{◌-◌};
ghost use Rattle.walk.specs.WalkState.{walk_state};
ghost use Rattle.trace.specs.Inner.{walk_entries, CanTrace, TraceLeft};

use crate::block::write_block;
use bits::step_bits;
use walk::Walk;

// What a trace answers: the operations written.
#[derive(Clone, Copy, Debug, PartialEq, Eq)]
pub struct Traced {
    pub doublings: u64,
    pub additions: u64,
}

// Writes the entries of steps `from` to `to` - 1 (from 0) of a walk that stands before step `from`, and answers what it wrote: each step has a
// doubling and d additions.
#[tactic(auto, unfolding(walk::specs::WalkState::walk_state))]
pub fn trace_steps(w: Walk, bits: &[u8], from: u64, to: u64, out: &mut [u8]) -> Traced
    requires { CanTrace (walk_state w) bits.now from to out.old }
    ensures { TraceLeft (walk_entries (walk_state w) bits.now from (to - from)) out.new result.doublings result.additions }
{
    let d = w.d as usize;
    let size = (d + 1) * (d + 2);
    let steps = to - from;
    let mut walk = w;
    // By index: of what is written through `chunks_mut` a proof knows the length alone.
    for i in 0..steps as usize {
        let r = step_bits(bits, d, from as usize + i);
        let at = i * size;
        walk = write_block(walk, r, &mut out[at..at + size]);
    }
    Traced {
        doublings: steps,
        additions: steps * w.d,
    }
}
