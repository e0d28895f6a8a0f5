// Whether numbers are elements of a modulus.
ghost use Rattle.std.specs.Prelude.{◌≡◌, ltb};
ghost use Rattle.ladder.specs.Lists.{all};

// Every number is below m.
pub fn all_below(m: u64, s: &[u64]) -> bool
    ensures { result ≡ all (λ e. ltb e m) s.now }
{
    s.iter().all(|e| *e < m)
}
