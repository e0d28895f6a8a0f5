// Numbers that grow by one binary digit a step, top digit first: one for each column, its last 64 digits held in a word.
ghost use Rattle.std.specs.Prelude.{◌≡◌, pred, ◌-◌, ◌≤◌, ◌++◌, map, length, take, replicate};
ghost use Rattle.ladder.specs.Matrix.{step_order};
ghost use Rattle.ladder.specs.Walk.{bits_of};
ghost use Rattle.bits.specs.Ready.{Columns};
ghost use Rattle.values.specs.Inner.{pushed, Pushed};

use bits::{bit, ones_in};

// A word with one digit more at its end: its last digit, turned where the bit is 1. The digit stands for the column's sign.
#[tactic(auto, using(crate::proofs::Pushing::word_pushed))]
fn push(word: u64, bit: u64) -> u64
    requires { bit ≤ 1 }
    ensures { result ≡ pushed bit word }
{
    word.wrapping_add(word) + (word % 2 + bit) % 2
}

// The order after a step with the bits in r, as the walk has it; each column's word takes the digit of the step. The new order's
// place k is the old order's place x after falling where bit k is 1, and its place y before growing, which is x + k, where it is 0.
pub fn step_digits(old: [u8; 8], d: usize, r: u64, held: &mut [u64]) -> [u8; 8]
    requires { (d ≤ 8) × (Columns d old × (length held.old ≡ d)) }
    ensures { (result ≡ step_order (take d old) (bits_of d r) ++ replicate (8 - d) 0)
        × Pushed d (step_order (map pred (take d old)) (bits_of d r)) (bits_of d r) held.old held.new }
{
    let mut new: [u8; 8] = [0; 8];
    let mut x = ones_in(d, r);
    for k in 0..d {
        let b = bit(d, r, k);
        let one = b as usize;
        x -= one;
        let c = old[x + k * (1 - one)];
        new[k] = c;
        let j = c as usize - 1;
        held[j] = push(held[j], b);
    }
    new
}
