// From the lower numbers to the entries of a row: of a number and the next, the one whose parity says whether the column stands
// above the row.
ghost use Rattle.std.specs.Prelude.{◌≡◌, ℕ, suc, ◌+◌, ◌*◌, ◌^◌, ◌<◌, ◌≤◌, length, take, slice_index};
ghost use Rattle.ladder.specs.Lists.{count};
ghost use Rattle.ladder.specs.Numbers.{number_of, words_of_all};
ghost use Rattle.values.specs.Inner.{Raisable, raised, raised_one};

use crate::stored::increment;

// For each column, how often it stands among the first `row` places: 1 or 0.
pub fn columns_above(order: [u8; 8], row: usize) -> [u64; 8]
    requires { (row ≤ 8) × ((i : ℕ) → i < row → (1 ≤ slice_index order i) × (slice_index order i ≤ 8)) }
    ensures { (j : ℕ) → j < 8 → slice_index result j ≡ count (suc j) (take row order) }
{
    let mut above = [0u64; 8];
    for column in &order[..row] {
        above[*column as usize - 1] += 1;
    }
    above
}

// Adds one to a value where its lowest bit is not `above`, which is 1 for a column that stands above the row, else 0.
fn raise_one(value: &mut [u64], above: u64)
    requires { (1 ≤ length value.old) × (number_of value.old + 1 < 2 ^ (64 * length value.old)) }
    ensures { value.new ≡ raised_one above value.old }
{
    if value[0] % 2 != above {
        increment(value);
    }
}

// Adds one to each value that is odd and whose column does not stand above the row, or even and it does.
pub fn raise(values: &mut [u64], d: usize, k: usize, above: [u64; 8])
    requires { Raisable d k above values.old }
    ensures { values.new ≡ words_of_all k (raised d k above values.old) }
{
    // By hand: after a loop over chunks_exact_mut a proof knows no word of the values
    for j in 0..d {
        raise_one(&mut values[j * k..j * k + k], above[j]);
    }
}
