// Whether decoded values are the scalars. A value can have one word more than a scalar.
ghost use Rattle.std.specs.Prelude.{◌≤◌, ◌≡◌, eqb, length};
ghost use Rattle.ladder.specs.Numbers.{number_of};

// Whether a value is a scalar: its first words are the scalar's, and the rest is 0.
pub fn same_value(value: &[u64], scalar: &[u64]) -> bool
    requires { length scalar.now ≤ length value.now }
    ensures { result ≡ eqb (number_of value.now) (number_of scalar.now) }
{
    let (low, high) = value.split_at(scalar.len());
    low == scalar && high.iter().all(|word| *word == 0)
}
