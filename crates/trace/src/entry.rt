// One entry of the trace.
ghost use Rattle.std.specs.Prelude.{◌≡◌, ◌+◌, ◌≤◌, length, take};
ghost use Rattle.ladder.specs.Trace.{entry_bytes};

use bits::signed_byte;

// Writes rows x and y, counted from 1, and the first d coefficients of the vector into the entry's bytes.
pub fn write_entry(d: usize, x: usize, y: usize, vector: [i8; 8], out: &mut [u8])
    requires { (d ≤ 8) × ((x ≤ 8) × ((y ≤ 8) × (length out.old ≡ d + 2))) }
    ensures { out.new ≡ entry_bytes (record { x = x; y = y; vector = take d vector }) }
{
    out[0] = (x + 1) as u8;
    out[1] = (y + 1) as u8;
    for j in 0..d {
        out[j + 2] = signed_byte(vector[j]);
    }
}
