// The judging of a walk state, which may hold anything, and of a step's number.
ghost use Rattle.std.specs.Prelude.{◌≤◌, ◌≡◌, ◌&&◌, eqb, take, drop};
ghost use Rattle.ladder.specs.Lists.{all};
ghost use Rattle.ladder.specs.Refusals.{is_arrangement, is_unit, all_units, is_zero, walk_order, step_shape, step_refusal};
ghost use Rattle.refusal.specs.Answers.{refusal_of};
ghost use Rattle.walk.specs.WalkState.{walk_state};

use crate::state::Walk;
use refusal::Refusal;
use refuse::unless;

// Each sign is 1 or -1.
fn units(signs: &[i8]) -> bool
    ensures { result ≡ all is_unit signs.now }
{
    signs.iter().all(|s| s.unsigned_abs() == 1)
}

// No column and no sign stands in these places.
fn free(columns: &[u8], signs: &[i8]) -> bool
    ensures { result ≡ all (eqb 0) columns.now && all is_zero signs.now }
{
    columns.iter().all(|c| *c == 0) && signs.iter().all(|s| *s == 0)
}

// The order is an arrangement of 1..d, and the signs of columns 1..d are 1 or -1; past place d both are 0.
#[tactic(auto, using(crate::proofs::Judged::units_are))]
fn in_order(w: Walk) -> bool
    requires { w.d ≤ 8 }
    ensures { result ≡ is_arrangement w.d (take w.d w.order) && all_units w.d w.signs && all (eqb 0) (drop w.d w.order) && all is_zero (drop w.d w.signs) }
{
    let d = w.d as usize;
    refuse::arrangement(w.d, &w.order[..d])
        && units(&w.signs[..d])
        && free(&w.order[d..], &w.signs[d..])
}

// Number 5 of a walk state.
#[tactic(auto, unfolding(ladder::specs::Refusals::walk_order, crate::specs::WalkState::walk_state))]
fn walk_order(w: Walk) -> Result<(), Refusal>
    requires { w.d ≤ 8 }
    ensures { refusal_of result ≡ walk_order (walk_state w) }
{
    unless(in_order(w), Refusal::Order)
}

// Number 3 of a step: its bits as a number, which must be below 2^d.
#[tactic(auto, unfolding(ladder::specs::Refusals::step_shape), using(crate::proofs::Judged::small_is))]
fn step_shape(d: u64, bits: u64) -> Result<(), Refusal>
    requires { d ≤ 8 }
    ensures { refusal_of result ≡ step_shape d bits }
{
    unless(bits >> d == 0, Refusal::Shape)
}

// The refusal of a step: 1, 5, 3. Only a d in range is used to look into the arrays.
#[tactic(auto, unfolding(ladder::specs::Refusals::step_refusal, crate::specs::WalkState::walk_state), using(refusal::proofs::Laws::then_refused, refusal::proofs::Laws::then_passed))]
pub fn step_refusal(w: Walk, bits: u64) -> Result<(), Refusal>
    ensures { refusal_of result ≡ step_refusal (walk_state w) bits }
{
    refuse::dim(w.d)?;
    walk_order(w)?;
    step_shape(w.d, bits)
}
