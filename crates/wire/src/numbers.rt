// The decimal numbers of a text: what stands between them is for the reader.
ghost use Rattle.std.specs.Prelude.{◌≤◌, IfSome, length};

fn digit(byte: u8) -> Option<u64> {
    char::from(byte).to_digit(10).map(u64::from)
}

// The next number of a text, and the text behind it; none where the text has no digit. A number above 2^64 - 1 is taken for that.
pub fn next(text: &[u8]) -> Option<(u64, &[u8])>
    ensures { IfSome result (λ found. length found.1.now ≤ length text.now) }
{
    let first = text.iter().position(|byte| digit(*byte).is_some())?;
    let number = &text[first..];
    let mut value = 0u64;
    for (i, byte) in number.iter().enumerate() {
        let Some(d) = digit(*byte) else {
            return Some((value, &number[i..]));
        };
        value = value.saturating_mul(10).saturating_add(d);
    }
    Some((value, &[]))
}
