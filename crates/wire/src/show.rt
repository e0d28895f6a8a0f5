// How what a request lends stands in a line: bytes and words in lower-case hexadecimal, a space before each.
ghost use Rattle.std.specs.Prelude.{◌≡◌, ◌<◌, false};
ghost use Rattle.std.specs.Fmt.{digit_glyph};

use std::fmt::{self, Display, Formatter};
use std::str;

// More bytes than these are told by their count and two sums.
const LONG: usize = 1000;

// A digit as a character: 0 to 9, then a to f.
fn glyph(digit: u8) -> u8
    requires { digit < 16 }
    ensures { result ≡ digit_glyph false digit }
{
    if digit < 10 {
        b'0' + digit
    } else {
        b'a' + (digit - 10)
    }
}

// Two digits each.
#[derive(Clone, Copy)]
pub struct Bytes<'a>(pub &'a [u8]);

impl Display for Bytes<'_> {
    fn fmt<W: fmt::Write>(&self, f: &mut Formatter<W>) -> fmt::Result {
        if self.0.len() > LONG {
            return write!(f, "{}", Sums::of(self.0));
        }
        // By hand, sixteen at a time: with `{byte:02x}` for each an answer takes a fifth longer.
        for bytes in self.0.chunks(16) {
            let mut text = [b' '; 48];
            for (shown, byte) in text.chunks_exact_mut(3).zip(bytes) {
                shown[1] = glyph(byte / 16);
                shown[2] = glyph(byte % 16);
            }
            let length = 3 * bytes.len().min(16);
            f.write_str(str::from_utf8(&text[..length]).map_err(|_| fmt::Error)?)?;
        }
        Ok(())
    }
}

// Without leading zeros.
#[derive(Clone, Copy)]
pub struct Words<'a>(pub &'a [u64]);

impl Display for Words<'_> {
    fn fmt<W: fmt::Write>(&self, f: &mut Formatter<W>) -> fmt::Result {
        for word in self.0 {
            write!(f, " {word:x}")?;
        }
        Ok(())
    }
}

// A text whose newlines are shown as bars. Its characters are ASCII, as those of a listing are.
#[derive(Clone, Copy)]
pub struct Barred<'a>(pub &'a [u8]);

impl Display for Barred<'_> {
    fn fmt<W: fmt::Write>(&self, f: &mut Formatter<W>) -> fmt::Result {
        for byte in self.0 {
            let shown = if *byte == b'\n' { b'|' } else { *byte };
            f.write_char(char::from(shown))?;
        }
        Ok(())
    }
}

// What stands for bytes that are too long to write out: their count, their sum, and their sum with each spread over those before it.
#[derive(Clone, Copy)]
struct Sums {
    count: usize,
    plain: u64,
    spread: u64,
}

impl Sums {
    fn of(bytes: &[u8]) -> Sums {
        let added = |sum: u64, byte: &u8| sum.wrapping_add(u64::from(*byte));
        Sums {
            count: bytes.len(),
            plain: bytes.iter().fold(0, added),
            spread: bytes.iter().fold(0, |sum, byte| added(spread(sum), byte)),
        }
    }
}

impl Display for Sums {
    fn fmt<W: fmt::Write>(&self, f: &mut Formatter<W>) -> fmt::Result {
        write!(
            f,
            " {} bytes of sums {} {}",
            self.count, self.plain, self.spread
        )
    }
}

fn spread(sum: u64) -> u64 {
    sum.wrapping_mul((1 << 40) + (1 << 21) + (1 << 7) + 1)
}
