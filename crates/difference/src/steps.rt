// The difference run: each new register is made from one old one and a difference vector.
ghost use Rattle.std.specs.Prelude.{◌≡◌, suc, pred, map, take};
ghost use Rattle.ladder.specs.Numbers.{bits_at};
ghost use Rattle.ladder.specs.Registers.{difference_rule, registers_after};
ghost use Rattle.ladder.specs.Walk.{bits_of, step_walk};
ghost use Rattle.bits.specs.WalkBlock.{walk_block};
ghost use Rattle.walk.specs.WalkState.{walk_state};
ghost use Rattle.difference.specs.Inner.{DifferenceStep, FromStart, difference_of};

use crate::addition::difference_add;
use bits::{bit, ones_in, step_bits};
use judge::start_walk;
use registers::{Modulus, Registers};
use walk::Walk;

// What the run has after a step. By hand: the step is no method of it, since its contract speaks of the d + 1 registers that there are, and not
// of nine words.
#[derive(Clone, Copy)]
pub struct Held {
    pub walk: Walk,
    pub regs: [u64; 9],
}

// One step with the bits r. Each addition fills in one sign more, as it is before the step: that of the column at the next place of the new
// order. Of the old registers it reads that of row x alone.
#[tactic(auto, using(bits::proofs::StepBits::ones_inside, crate::proofs::Stepping::doubled), unfolding(walk::specs::WalkState::walk_state))]
pub fn difference_step(m: Modulus, w: Walk, r: u64, elements: &[u64], old: &[u64]) -> Held
    requires { DifferenceStep m (walk_state w) elements.now old.now }
    ensures { (walk_state result.walk ≡ step_walk (walk_state w) r) × (take (suc w.d) result.regs ≡ map (difference_of m elements.now old.now) (walk_block w.d (take w.d w.signs) (map pred (take w.d result.walk.order)) (bits_of w.d r))) }
{
    let d = w.d as usize;
    let places = w.order;
    let before = w.signs;
    let mut vector = [0i8; 8];
    let mut order = [0u8; 8];
    let mut signs = [0i8; 8];
    let mut new = [0u64; 9];
    let mut x = ones_in(d, r);
    new[0] = m.add(old[x], old[x]);
    for k in 0..d {
        let b = bit(d, r, k) as usize;
        x -= b;
        let c = places[x + k * (1 - b)];
        order[k] = c;
        let j = c as usize - 1;
        let s = before[j];
        vector[j] = s;
        signs[j] = if b == 1 { -s } else { s };
        new[k + 1] = difference_add(old[x], &vector[..d], elements, m);
    }
    let walk = Walk {
        d: w.d,
        order,
        signs,
    };
    Held { walk, regs: new }
}

// All l steps, from the start of the walk with this start order, and the start registers.
#[tactic(auto, unfolding(walk::specs::WalkState::walk_state))]
pub fn difference_steps(
    m: Modulus,
    d: u64,
    l: usize,
    start: &[u8],
    bits: &[u8],
    elements: &[u64],
    first: Registers,
) -> Registers
    requires { FromStart m d l start.now bits.now elements.now first.words }
    ensures { take (suc d) result.words ≡ registers_after (difference_rule m elements.now) d (map pred start.now) (bits_at d bits.now) (take (suc d) first.words) l }
{
    let mut walk = start_walk(d, start);
    let d = walk.d as usize;
    let mut words = first.words;
    for s in 0..l {
        let r = step_bits(bits, d, s);
        let held = difference_step(m, walk, r, elements, &words[..d + 1]);
        walk = held.walk;
        words = held.regs;
    }
    Registers { words }
}
