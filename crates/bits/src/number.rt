// The bits of a step, which come as one number.
ghost use Rattle.std.specs.Prelude.{◌≡◌, ◌<◌, ◌≤◌, get_or};
ghost use Rattle.ladder.specs.Walk.{bits_of};
ghost use Rattle.ladder.specs.Lists.{ones};

// Bit k of the d bits in r; the first has weight 2^(d-1).
pub fn bit(d: usize, r: u64, k: usize) -> u64
    requires { (k < d) × (d ≤ 8) }
    ensures { result ≡ get_or (bits_of d r) k 0 }
{
    (r >> (d - 1 - k)) % 2
}

// How many of the d bits in r are 1.
#[tactic(auto, using(crate::proofs::StepBits::power, crate::proofs::StepBits::ones_of_bits))]
pub fn ones_in(d: usize, r: u64) -> usize
    requires { d ≤ 8 }
    ensures { result ≡ ones (bits_of d r) }
{
    (r % (1 << d)).count_ones() as usize
}
