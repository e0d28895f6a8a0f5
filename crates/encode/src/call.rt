// The public call `encode`.
ghost use Rattle.std.specs.Prelude.{◌≡◌};
ghost use Rattle.ladder.specs.Refusals.{encode_refusal};
ghost use Rattle.refusal.specs.Answers.{refusal_of, answer_or};
ghost use Rattle.encode.specs.Promise.{EncodePromise};

use crate::order::house_order;
use crate::steps::encode_with;
use refusal::Refusal;
use refuse::{bits_length, scalars_length, shape};
use scalars::{odd_count, scalar_refusal};

// The first refusal that applies, of 1, 2, 3, 4. Buffers are measured only where d and l are in range, and the scalars are looked at only
// where every buffer has its length.
#[tactic(auto, using(crate::proofs::Judged::judging))]
fn encode_refusal(d: u64, l: u64, scalars: &[u64], start: &[u8], bits: &[u8]) -> Result<(), Refusal>
    ensures { refusal_of result ≡ encode_refusal d l scalars.now start.now bits.now }
{
    refuse::range(d, l)?;
    shape(scalars.len(), scalars_length(d, l))?;
    shape(start.len(), d)?;
    shape(bits.len(), bits_length(d, l))?;
    scalar_refusal(d as usize, l as usize, scalars)
}

// Writes the start order and the bits of the plan of d scalars of l bits with the house order as end order, and answers its row. Where it
// refuses (1, 2, 3, 4), both are as they came.
#[tactic(auto, using(crate::proofs::Kept::keeping))]
pub fn encode(
    d: u64,
    l: u64,
    scalars: &[u64],
    start: &mut [u8],
    bits: &mut [u8],
) -> Result<u64, Refusal>
    ensures { EncodePromise d l scalars.now start.old bits.old (refusal_of result) (answer_or 0 result) start.new bits.new }
{
    encode_refusal(d, l, scalars, start, bits)?;
    let columns = d as usize;
    let steps = l as usize;
    let end = house_order(columns, steps, scalars);
    encode_with(columns, steps, end, scalars, start, bits);
    let odd = odd_count(columns, steps, scalars);
    Ok(odd + 1)
}
