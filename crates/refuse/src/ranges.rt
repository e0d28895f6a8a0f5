// Whether a number lies in a range, and the ranges of d, l and a modulus.
ghost use Rattle.std.specs.Prelude.{◌≡◌};
ghost use Rattle.ladder.specs.Refusals.{within};

// d is 1 to 8.
pub const MOST_COLUMNS: u64 = 8;

// l is 1 to 576.
pub const MOST_STEPS: u64 = 576;

// A modulus is at most 2^63; 0 stands for 2^64.
pub const LARGEST_MODULUS: u64 = 9223372036854775808;

#[tactic(auto, unfolding(ladder::specs::Refusals::within))]
pub fn within(lo: u64, hi: u64, n: u64) -> bool
    ensures { result ≡ within lo hi n }
{
    lo <= n && n <= hi
}
