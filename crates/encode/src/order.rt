// Orders of columns: the first d places of an array, columns counted from 0.
ghost use Rattle.std.specs.Prelude.{◌≡◌, ◌≤◌, take};
ghost use Rattle.ladder.specs.Numbers.{numbers_of, scalar_words};
ghost use Rattle.ladder.specs.Encoding.{rearrange, house_order};
ghost use Rattle.ladder.specs.Walk.{bits_of};
ghost use Rattle.scalars.specs.Inner.{Fitting};

use crate::dealing::deal;
use scalars::gather;

// The order before a step with this order after it and the bits r, the first highest: the columns with bit 1 in reverse, then
// the others. One pass from the last place to the first collects the two lists from both ends of one array, those with bit 1 from
// its front, those with bit 0 from its back; where they meet they are joined. A column is put at the end of both lists; the
// next turn writes over the one that it is not of.
pub fn rearrange(order: [u8; 8], d: usize, r: u64) -> [u8; 8]
    requires { d ≤ 8 }
    ensures { take d result ≡ rearrange (take d order) (bits_of d r) }
{
    let mut out = [0u8; 8];
    let mut front: usize = 0;
    for left in (0..d).rev() {
        let after = d - 1 - left;
        let column = order[left];
        out[front] = column;
        out[front + left] = column;
        front += ((r >> after) % 2) as usize;
    }
    out
}

// The house order: columns with odd scalars rising, then columns with even scalars rising. Rearranged once, the odd ones' columns
// stand first and fall; once more, and they rise.
pub fn house_order(d: usize, l: usize, scalars: &[u64]) -> [u8; 8]
    requires { Fitting d l scalars.now }
    ensures { take d result ≡ house_order d (numbers_of d (scalar_words l) scalars.now) }
{
    let rising: [u8; 8] = [0, 1, 2, 3, 4, 5, 6, 7];
    let odd = gather(d, l, 0, scalars);
    let falling = rearrange(rising, d, deal(rising, d, odd));
    rearrange(falling, d, deal(falling, d, odd))
}
