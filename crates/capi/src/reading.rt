// Decode and check.
ghost use Rattle.ladder.specs.Plan.{plan_lent};
ghost use Rattle.decode.specs.Promise.{DecodePromise};
ghost use Rattle.capi.specs.Promise.{CheckNumberPromise};

use plan::Plan;
use refusal::parts;

// Writes the values of the answer row of the plan's last matrix.
#[unsafe(no_mangle)]
pub extern "C" fn immarduzh_decode(
    d: u64,
    l: u64,
    start: &[u8],
    bits: &[u8],
    row: u64,
    values: &mut [u64],
) -> u64
    ensures { DecodePromise (plan_lent d l start.now bits.now row) values.old result values.new }
{
    let plan = Plan {
        d,
        l,
        start,
        bits,
        row,
    };
    parts(plan::decode(&plan, values), ()).0
}

// Says by 1 or 0 whether the answer row of the plan's last matrix is the scalars.
#[unsafe(no_mangle)]
pub extern "C" fn immarduzh_check(
    d: u64,
    l: u64,
    start: &[u8],
    bits: &[u8],
    row: u64,
    scalars: &[u64],
    yes: &mut u64,
) -> u64
    ensures { CheckNumberPromise (plan_lent d l start.now bits.now row) scalars.now result yes.new }
{
    let plan = Plan {
        d,
        l,
        start,
        bits,
        row,
    };
    let (refusal, said) = parts(plan::check(&plan, scalars), false);
    *yes = said as u64;
    refusal
}
