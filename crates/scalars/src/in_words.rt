// Scalars in lent words: d of them, ceil(l / 64) words of 64 bits each, lowest word first. Nothing here knows of plans.
ghost use Rattle.std.specs.Prelude.{◌≡◌, ◌+◌, ◌*◌, ◌/◌, ◌%◌, ◌^◌, ◌≤◌, ◌<◌, ltb, length, take, drop};
ghost use Rattle.ladder.specs.Lists.{all, odds};
ghost use Rattle.ladder.specs.Numbers.{number_of, numbers_of, scalar_words};
ghost use Rattle.ladder.specs.Refusals.{scalar};
ghost use Rattle.refusal.specs.Answers.{refusal_of};
ghost use Rattle.scalars.specs.Inner.{Shaped, Fitting, gathered};

use refusal::Refusal;
use refuse::unless;

// The words of one scalar: ceil(l / 64).
#[tactic(auto, unfolding(ladder::specs::Numbers::scalar_words))]
pub fn scalar_words(l: usize) -> usize
    requires { l ≤ 576 }
    ensures { result ≡ scalar_words l }
{
    (l + 63) / 64
}

// Bit i, counted from the lowest, of scalar j, where each scalar has k words.
fn bit(k: usize, j: usize, i: usize, scalars: &[u64]) -> u64
    requires { (i / 64 < k) × (j * k + k ≤ length scalars.now) }
    ensures { result ≡ number_of (take k (drop (j * k) scalars.now)) / 2 ^ i % 2 }
{
    (scalars[j * k + i / 64] >> (i % 64)) % 2
}

// Bit i of every scalar as one number, that of column j (the rules' j+1) at weight 2^j. Past the scalars' length it is 0.
#[tactic(auto, using(crate::proofs::Gathered::gathered_small))]
pub fn gather(d: usize, l: usize, i: usize, scalars: &[u64]) -> u64
    requires fitting { Fitting d l scalars.now }
    requires i_le_l { i ≤ l }
    ensures { result ≡ gathered (numbers_of d (scalar_words l) scalars.now) i }
{
    if i == l {
        return 0;
    }
    let k = scalar_words(l);
    let mut bits: u64 = 0;
    // By hand: `rchunks_exact(k)` was proved too, but divides the length by k at each call, and encode took a tenth longer at d = 1.
    for j in (0..d).rev() {
        bits = bits * 2 + bit(k, j, i, scalars);
    }
    bits
}

// How many scalars are odd.
#[tactic(auto, using(crate::proofs::Words::some_words))]
pub fn odd_count(d: usize, l: usize, scalars: &[u64]) -> u64
    requires { Shaped d l scalars.now }
    ensures { result ≡ odds (numbers_of d (scalar_words l) scalars.now) }
{
    scalars
        .chunks_exact(scalar_words(l))
        .filter(|scalar| scalar[0] % 2 == 1)
        .count() as u64
}

// Whether every scalar is below 2^l. Of each only the top word matters, which has (l - 1) % 64 + 1 of the l bits.
#[tactic(auto, using(crate::proofs::Words::some_words))]
fn scalars_below(d: usize, l: usize, scalars: &[u64]) -> bool
    requires { Shaped d l scalars.now }
    ensures { result ≡ all (λ n. ltb n (2 ^ l)) (numbers_of d (scalar_words l) scalars.now) }
{
    let k = scalar_words(l);
    scalars
        .chunks_exact(k)
        .all(|scalar| scalar[k - 1] >> ((l - 1) % 64) <= 1)
}

// Number 4 of the table: a scalar is 2^l or more.
#[tactic(auto, unfolding(ladder::specs::Refusals::scalar))]
pub fn scalar_refusal(d: usize, l: usize, scalars: &[u64]) -> Result<(), Refusal>
    requires { Shaped d l scalars.now }
    ensures { refusal_of result ≡ scalar l (numbers_of d (scalar_words l) scalars.now) }
{
    unless(scalars_below(d, l, scalars), Refusal::Scalar)
}
