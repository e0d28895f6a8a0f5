// Whether numbers are an arrangement of 1..d.
ghost use Rattle.std.specs.Prelude.{◌≡◌, eqb};
ghost use Rattle.ladder.specs.Lists.{all, count};
ghost use Rattle.ladder.specs.Refusals.{within, each_once, is_arrangement};

use crate::ranges::within;

// Every number lies in 1..d.
fn all_within(d: u64, s: &[u8]) -> bool
    ensures { result ≡ all (within 1 d) s.now }
{
    s.iter().all(|v| within(1, d, u64::from(*v)))
}

// v occurs once.
#[tactic(auto, using(crate::proofs::Counting::counting))]
fn once(v: u64, s: &[u8]) -> bool
    ensures { result ≡ eqb (count v s.now) 1 }
{
    // By hand: the library's `filter` and `count` branch at each number, and a step of a walk then takes half as long again.
    let mut n: usize = 0;
    for x in s {
        n += usize::from(u64::from(*x) == v);
    }
    n == 1
}

// Each of 1..d occurs once.
fn each_once(d: u64, s: &[u8]) -> bool
    ensures { result ≡ each_once d s.now }
{
    // By hand: of `(0..d).all(..)` the check finds no proof, since no range says what a chain over it yields.
    for v in 0..d {
        if !once(v + 1, s) {
            return false;
        }
    }
    true
}

#[tactic(auto, unfolding(ladder::specs::Refusals::is_arrangement))]
pub fn arrangement(d: u64, s: &[u8]) -> bool
    ensures { result ≡ is_arrangement d s.now }
{
    s.len() as u64 == d && all_within(d, s) && each_once(d, s)
}
