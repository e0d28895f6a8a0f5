// Dealing: each place of an order gets the bit of the column that stands there.
ghost use Rattle.std.specs.Prelude.{◌≡◌, ◌^◌, ◌<◌, take};
ghost use Rattle.ladder.specs.Walk.{bits_of};
ghost use Rattle.encode.specs.Inner.Order.{ColumnsIn, dealt_by};

// The bits of a step as one number, that of the first place highest. Column j's bit stands in `dealt` at weight 2^j.
pub fn deal(order: [u8; 8], d: usize, dealt: u64) -> u64
    requires { ColumnsIn d order }
    ensures { (bits_of d result ≡ dealt_by dealt (take d order)) × (result < 2 ^ d) }
{
    let mut r: u64 = 0;
    for column in &order[..d] {
        r = r * 2 + (dealt >> *column) % 2;
    }
    r
}
