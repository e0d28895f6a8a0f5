// Bits written into bytes from the last to the first.
ghost use Rattle.std.specs.Prelude.{◌≡◌, ◌<◌, length};

// The bytes from `at` on are written. The bits that come before them, `held` of them, are still held in `fill`, the last lowest.
#[derive(Drop)]
pub struct Packer<'a> {
    bytes: &'a mut [u8],
    at: usize,
    held: usize,
    fill: u64,
}

impl<'a> Packer<'a> {
    ghost use Rattle.encode.specs.Inner.Packing.{Room, Put};

    // No byte is written, and as many zeros as this are held, which fill the last byte.
    pub fn new(bytes: &'a mut [u8], filling: usize) -> Packer<'a>
        requires { filling < 8 }
        ensures same_reference { result.bytes.ghost_name ≡ bytes.entry.ghost_name }
        ensures bytes { result.bytes.now ≡ bytes.old }
        ensures at { result.at ≡ length bytes.old }
        ensures held { result.held ≡ filling }
        ensures fill { result.fill ≡ 0 }
    {
        let at = bytes.len();
        Packer {
            bytes,
            at,
            held: filling,
            fill: 0,
        }
    }

    // Puts d bits, the number r, the first highest, before those that are written or held. At most one byte is finished.
    pub fn put(&mut self, d: usize, r: u64)
        requires { Room self.old d r }
        ensures same_reference { self.new.bytes.ghost_name ≡ self.old.bytes.ghost_name }
        ensures put { Put self.old d r self.new }
    {
        self.fill += r << self.held;
        self.held += d;
        if self.held >= 8 {
            self.at -= 1;
            self.bytes[self.at] = (self.fill % 256) as u8;
            self.held -= 8;
            self.fill /= 256;
        }
    }
}
