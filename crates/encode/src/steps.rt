// The encoder's core: from scalars and any arrangement as end order to a start order and bits.
ghost use Rattle.std.specs.Prelude.{◌≡◌, map, suc, length, take};
ghost use Rattle.ladder.specs.Lists.{joined};
ghost use Rattle.ladder.specs.Numbers.{numbers_of, scalar_words, pack_bits, bits_length};
ghost use Rattle.ladder.specs.Matrix.{Arrangement};
ghost use Rattle.ladder.specs.Encoding.{encoded_start, encoded_bits};
ghost use Rattle.scalars.specs.Inner.{Fitting};
ghost use Rattle.encode.specs.Inner.Order.{ColumnsIn};

use crate::dealing::deal;
use crate::order::rearrange;
use crate::packing::Packer;
use scalars::gather;

// Writes the first columns of an order, counted from 1: as many as there are places.
fn write_start(order: [u8; 8], start: &mut [u8])
    requires { ColumnsIn (length start.old) order }
    ensures { start.new ≡ map suc (take (length start.old) order) }
{
    // By hand: with `zip(&order)` no proof knows afterwards what was written.
    for (k, place) in start.iter_mut().enumerate() {
        *place = order[k] + 1;
    }
}

// Writes the start order and the bits that scalars and an end order give, from the last step to the first. The bits gathered
// for one step, `above`, are `below` for the next. The filling bits, 0, stand last, so they are the first that are held.
#[tactic(auto, using(crate::proofs::Backward::fitting_bits, crate::proofs::Backward::few_filling))]
pub fn encode_with(
    d: usize,
    l: usize,
    end: [u8; 8],
    scalars: &[u64],
    start: &mut [u8],
    bits: &mut [u8],
)
    requires fitting { Fitting d l scalars.now }
    requires arrangement { Arrangement d (take d end) }
    requires start_len { length start.old ≡ d }
    requires bits_len { length bits.old ≡ bits_length d l }
    ensures start { start.new ≡ map suc (encoded_start l (numbers_of d (scalar_words l) scalars.now) (take d end)) }
    ensures bits { bits.new ≡ pack_bits (joined l (encoded_bits l (numbers_of d (scalar_words l) scalars.now) (take d end))) }
{
    let mut order = end;
    let filling = bits.len() * 8 - l * d;
    let mut packer = Packer::new(bits, filling);
    let mut below = gather(d, l, 0, scalars);
    for i in 0..l {
        let above = gather(d, l, i + 1, scalars);
        let r = deal(order, d, above ^ below);
        packer.put(d, r);
        // By hand: `order = rearrange(..)` gets no generated proof, since an array is lent there.
        let before = rearrange(order, d, r);
        order = before;
        below = above;
    }
    write_start(order, start);
}
