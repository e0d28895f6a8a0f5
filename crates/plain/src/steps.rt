// The plain run: each new register is the sum of two old ones.
ghost use Rattle.std.specs.Prelude.{◌≡◌, List, map, ℕ, suc, length, take};
ghost use Rattle.ladder.specs.Numbers.{bits_at};
ghost use Rattle.ladder.specs.Registers.{plain_rule, registers_after};
ghost use Rattle.ladder.specs.Trace.{operations};
ghost use Rattle.ladder.specs.Walk.{bits_of};
ghost use Rattle.plain.specs.Inner.{PlainStep, PlainSteps, plain_sum};

use bits::{bit, ones_in, step_bits};
use registers::{Modulus, Registers};

// One step with the bits r, from the old registers into the new: the doubling, then the additions. Rows are counted from 0; x falls where a
// bit is 1, and after k bits y is x + k.
#[tactic(auto, using(crate::proofs::Stepping::summing))]
pub fn plain_step(m: Modulus, d: usize, r: u64, old: &[u64], new: &mut [u64])
    requires { PlainStep m d old.now × (length new.old ≡ suc d) }
    ensures { new.new ≡ map (plain_sum m old.now) (operations (bits_of d r)) }
{
    let mut x = ones_in(d, r);
    new[0] = m.add(old[x], old[x]);
    for k in 0..d {
        x -= bit(d, r, k) as usize;
        let y = x + k + 1;
        new[k + 1] = m.add(old[x], old[y]);
    }
}

// All l steps, from the start registers in `regs` to the end registers there: two at a time, through the other words and back, so that no
// register is copied but after a last single step.
#[tactic(auto, using(crate::proofs::Stepping::stepped, crate::proofs::Stepping::running_end))]
fn steps_in_pairs(m: Modulus, d: usize, l: usize, bits: &[u8], regs: &mut [u64], other: &mut [u64])
    requires { PlainSteps m d l bits.now regs.old × (length other.old ≡ suc d) }
    ensures { (S : List ℕ) → regs.new ≡ registers_after (plain_rule m) d S (bits_at d bits.now) regs.old l }
{
    let pairs = l / 2;
    for pair in 0..pairs {
        let s = 2 * pair;
        plain_step(m, d, step_bits(bits, d, s), regs, other);
        plain_step(m, d, step_bits(bits, d, s + 1), other, regs);
    }
    let last = 2 * pairs;
    if last < l {
        plain_step(m, d, step_bits(bits, d, last), regs, other);
        regs.copy_from_slice(other);
    }
}

// All l steps, of nine words that hold the d + 1 registers.
pub fn plain_steps(m: Modulus, d: usize, l: usize, bits: &[u8], start: Registers) -> Registers
    requires { PlainSteps m d l bits.now (take (suc d) start.words) }
    ensures { (S : List ℕ) → take (suc d) result.words ≡ registers_after (plain_rule m) d S (bits_at d bits.now) (take (suc d) start.words) l }
{
    let mut words = start.words;
    let mut other = [0u64; 9];
    steps_in_pairs(m, d, l, bits, &mut words[..d + 1], &mut other[..d + 1]);
    Registers { words }
}
