// The plain run and the difference run.
ghost use Rattle.ladder.specs.Plan.{plan_lent};
ghost use Rattle.run.specs.Promise.{PlainPromise, DifferencePromise};
ghost use Rattle.capi.specs.Answers.{ran};

use plan::{Plan, Ran};
use refusal::parts;

// What is written for a run that is refused.
const NO_RUN: Ran = Ran {
    answer: 0,
    doublings: 0,
    additions: 0,
};

// Leaves the end registers of the plain run; writes the answer, and the counts of doublings and additions.
#[unsafe(no_mangle)]
pub extern "C" fn immarduzh_plain_run(
    d: u64,
    l: u64,
    start: &[u8],
    bits: &[u8],
    row: u64,
    m: u64,
    elements: &[u64],
    registers: &mut [u64],
    answer: &mut u64,
    doublings: &mut u64,
    additions: &mut u64,
) -> u64
    ensures { PlainPromise (plan_lent d l start.now bits.now row) m elements.now registers.old result (ran answer.new doublings.new additions.new) registers.new }
{
    let plan = Plan {
        d,
        l,
        start,
        bits,
        row,
    };
    let (refusal, r) = parts(plan::plain_run(&plan, m, elements, registers), NO_RUN);
    *answer = r.answer;
    *doublings = r.doublings;
    *additions = r.additions;
    refusal
}

// Leaves the end registers of the difference run; writes the answer, and the counts of doublings and additions.
#[unsafe(no_mangle)]
pub extern "C" fn immarduzh_difference_run(
    d: u64,
    l: u64,
    start: &[u8],
    bits: &[u8],
    row: u64,
    m: u64,
    elements: &[u64],
    registers: &mut [u64],
    answer: &mut u64,
    doublings: &mut u64,
    additions: &mut u64,
) -> u64
    ensures { DifferencePromise (plan_lent d l start.now bits.now row) m elements.now registers.old result (ran answer.new doublings.new additions.new) registers.new }
{
    let plan = Plan {
        d,
        l,
        start,
        bits,
        row,
    };
    let (refusal, r) = parts(plan::difference_run(&plan, m, elements, registers), NO_RUN);
    *answer = r.answer;
    *doublings = r.doublings;
    *additions = r.additions;
    refusal
}
