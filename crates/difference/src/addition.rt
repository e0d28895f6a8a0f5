// The addition of the difference run: register x and the elements' combination by a vector of -1, 0 and 1.
ghost use Rattle.std.specs.Prelude.{◌≡◌, ◌%◌, ◌<◌};
ghost use Rattle.ladder.specs.Matrix.{IsSmall};
ghost use Rattle.ladder.specs.Registers.{modulus, times_signed, difference_add};
ghost use Rattle.difference.specs.Inner.{DifferenceAdd};

use registers::Modulus;

// An element times -1, 0 or 1: chosen among values that are all made, so that the choice needs no branch.
fn times(m: Modulus, c: i8, e: u64) -> u64
    requires { IsSmall c × (e < modulus m) }
    ensures { result ≡ times_signed m c e % modulus m }
{
    let minus = m.negative(e);
    let signed = if c < 0 { minus } else { e };
    if c == 0 { 0 } else { signed }
}

// The addition of the difference run: twice register x, and the elements' combination by the vector. It is handed nothing else.
pub fn difference_add(x: u64, vector: &[i8], elements: &[u64], m: Modulus) -> u64
    requires { DifferenceAdd x vector.now elements.now m }
    ensures { result ≡ difference_add m elements.now x vector.now }
{
    let mut sum = m.add(x, x);
    // By hand: an index, since a zip of the vector and the elements takes up to 7 % more instructions a run.
    for j in 0..elements.len() {
        sum = m.add(sum, times(m, vector[j], elements[j]));
    }
    sum
}
