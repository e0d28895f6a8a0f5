// Signs: those after a step, and a signed number as a byte.
ghost use Rattle.std.specs.Prelude.{◌≡◌, ◌++◌, map, pred, ◌-◌, ◌≤◌, pos, take, replicate};
ghost use Rattle.ladder.specs.Matrix.{turn, Units};
ghost use Rattle.ladder.specs.Trace.{signed_byte};
ghost use Rattle.ladder.specs.Walk.{bits_of};
ghost use Rattle.bits.specs.Ready.{Columns};

use crate::number::bit;

// The signs of columns 1..d, those turned that stand at a place of the new order where the bit is 1.
#[tactic(auto, using(crate::proofs::Turning::turning))]
pub fn next_signs(d: usize, signs: [i8; 8], order: [u8; 8], r: u64) -> [i8; 8]
    requires { (d ≤ 8) × (Columns d order × Units d signs) }
    ensures { result ≡ turn (take d signs) (map pred (take d order)) (bits_of d r) ++ replicate (8 - d) (pos 0) }
{
    let mut new = [0; 8];
    for k in 0..d {
        let j = order[k] as usize - 1;
        let s = signs[j];
        new[j] = if bit(d, r, k) == 1 { -s } else { s };
    }
    new
}

// A signed number as a byte, two's complement.
#[tactic(auto, using(crate::proofs::SignedByte::byte_is))]
pub fn signed_byte(s: i8) -> u8
    ensures { result ≡ signed_byte s }
{
    s.cast_unsigned()
}
