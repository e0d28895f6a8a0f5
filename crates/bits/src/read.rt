// The bits of a plan, read from lent bytes.
ghost use Rattle.std.specs.Prelude.{◌+◌, ◌*◌, ◌<◌, ◌≤◌, length};
ghost use Rattle.bits.specs.ReadBits.{ReadBits};

// The d bits of step s (from 0) as one number, the first of weight 2^(d-1). They stand in two neighbouring bytes at most.
pub fn step_bits(bytes: &[u8], d: usize, s: usize) -> u64
    requires { (d ≤ 8) × ((s < 576) × (s * d + d ≤ 8 * length bytes.now)) }
    ensures { ReadBits d s bytes.now result }
{
    let first = s * d;
    let at = first / 8;
    let high = bytes.get(at).copied().unwrap_or(0);
    let low = bytes.get(at + 1).copied().unwrap_or(0);
    let two = u64::from(u16::from_be_bytes([high, low]));
    (two >> (16 - first % 8 - d)) % (1 << d)
}
