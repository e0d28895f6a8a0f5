// Step and trace.
ghost use Rattle.std.specs.Prelude.{◌≡◌};
ghost use Rattle.ladder.specs.Plan.{plan_lent};
ghost use Rattle.walk.specs.Promise.{StepPromise};
ghost use Rattle.walk.specs.Stepped.{step_number, walk_answered};
ghost use Rattle.trace.specs.Promise.{TracePromise};
ghost use Rattle.capi.specs.Answers.{walk, traced};

use plan::{Plan, Traced, Unstepped, Walk};
use refusal::parts;

// The number of a step's answer, and the walk state in it.
fn stepped(answer: Result<Walk, Unstepped>) -> (u64, Walk)
    ensures number { result.0 ≡ step_number answer }
    ensures walk { result.1 ≡ walk_answered answer }
{
    match answer {
        Ok(next) => (plan::OK, next),
        Err(unstepped) => (unstepped.refusal.number(), unstepped.walk),
    }
}

// One step of a paused walk, whose order and signs are stepped in place.
#[unsafe(no_mangle)]
pub extern "C" fn immarduzh_step(d: u64, order: &mut [u8; 8], signs: &mut [i8; 8], bits: u64) -> u64
    ensures { StepPromise (walk d order.old signs.old) bits result (walk d order.new signs.new) }
{
    let w = Walk {
        d,
        order: *order,
        signs: *signs,
    };
    let (refusal, next) = stepped(w.step(bits));
    // by variables: an array that is part of another value may not be stored straight (not covered)
    let places = next.order;
    let turned = next.signs;
    *order = places;
    *signs = turned;
    refusal
}

// Writes the trace of a plan, and the counts of its doublings and additions.
#[unsafe(no_mangle)]
pub extern "C" fn immarduzh_trace(
    d: u64,
    l: u64,
    start: &[u8],
    bits: &[u8],
    row: u64,
    out: &mut [u8],
    doublings: &mut u64,
    additions: &mut u64,
) -> u64
    ensures { TracePromise (plan_lent d l start.now bits.now row) out.old result (traced doublings.new additions.new) out.new }
{
    let plan = Plan {
        d,
        l,
        start,
        bits,
        row,
    };
    let none = Traced {
        doublings: 0,
        additions: 0,
    };
    let (refusal, r) = parts(plan::trace(&plan, out), none);
    *doublings = r.doublings;
    *additions = r.additions;
    refusal
}
