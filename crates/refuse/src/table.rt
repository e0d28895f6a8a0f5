// A function for each number of the table that more than one call can give. Number 4 stands with the scalars, a walk state's 5 and a step's 3
// with the walk, 9 with the plan file, 10 with the listing.
ghost use Rattle.std.specs.Prelude.{◌≡◌, eqb};
ghost use Rattle.ladder.specs.Refusals.{◌then◌, unless, SHAPE, dim, len, order, answer, too_large, element};
ghost use Rattle.refusal.specs.Answers.{number, refusal_of};

use crate::elements::all_below;
use crate::orders::arrangement;
use crate::ranges::{LARGEST_MODULUS, MOST_COLUMNS, MOST_STEPS, within};
use refusal::Refusal;

// Refuses unless a test holds.
#[tactic(auto, unfolding(ladder::specs::Refusals::unless))]
pub fn unless(test: bool, refusal: Refusal) -> Result<(), Refusal>
    ensures { refusal_of result ≡ unless test (number refusal) }
{
    if test { Ok(()) } else { Err(refusal) }
}

#[tactic(auto, unfolding(ladder::specs::Refusals::dim))]
pub fn dim(d: u64) -> Result<(), Refusal>
    ensures { refusal_of result ≡ dim d }
{
    unless(within(1, MOST_COLUMNS, d), Refusal::Dim)
}

#[tactic(auto, unfolding(ladder::specs::Refusals::len))]
fn len(l: u64) -> Result<(), Refusal>
    ensures { refusal_of result ≡ len l }
{
    unless(within(1, MOST_STEPS, l), Refusal::Length)
}

// d, then l.
#[tactic(auto, using(refusal::proofs::Laws::then_refused, refusal::proofs::Laws::then_passed))]
pub fn range(d: u64, l: u64) -> Result<(), Refusal>
    ensures { refusal_of result ≡ dim d then len l }
{
    dim(d)?;
    len(l)
}

// A buffer of `have` elements that must have `want`.
pub fn shape(have: usize, want: u64) -> Result<(), Refusal>
    ensures { refusal_of result ≡ unless (eqb have want) SHAPE }
{
    unless(have as u64 == want, Refusal::Shape)
}

#[tactic(auto, unfolding(ladder::specs::Refusals::order))]
pub fn order(d: u64, start: &[u8]) -> Result<(), Refusal>
    ensures { refusal_of result ≡ order d start.now }
{
    unless(arrangement(d, start), Refusal::Order)
}

// Row 1..d+1, without the sum that wraps at the largest d.
pub fn answer(d: u64, row: u64) -> Result<(), Refusal>
    ensures { refusal_of result ≡ answer d row }
{
    unless(row != 0 && row - 1 <= d, Refusal::Row)
}

// A modulus above 2^63.
#[tactic(auto, unfolding(ladder::specs::Refusals::too_large))]
pub fn too_large(m: u64) -> Result<(), Refusal>
    ensures { refusal_of result ≡ too_large m }
{
    unless(m <= LARGEST_MODULUS, Refusal::Modulus)
}

// An element not below a modulus other than 0.
pub fn element(m: u64, elements: &[u64]) -> Result<(), Refusal>
    ensures { refusal_of result ≡ element m elements.now }
{
    unless(m == 0 || all_below(m, elements), Refusal::Element)
}
