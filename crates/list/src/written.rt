// What the program writes, for any bytes.
ghost use Rattle.std.specs.Prelude.{◌≡◌, ◌++◌, ◌≤◌, length, drop};
ghost use Rattle.ladder.specs.Numbers.{longest_text};
ghost use Rattle.ladder.specs.Listing.{refused_text};
ghost use Rattle.refusal.specs.Answers.{number};
ghost use Rattle.list.specs.Promise.{Written};

use plan::Refusal;
use text::refused_line;

// Puts the line `refused` and the number at the start of the buffer, and answers how many bytes that is.
fn put_refused(refusal: Refusal, text: &mut [u8]) -> usize
    requires { length text.old ≡ longest_text }
    ensures size { result ≡ length (refused_text (number refusal)) }
    ensures text { text.new ≡ refused_text (number refusal) ++ drop result text.old }
{
    let line = refused_line(refusal.number());
    let refused = line.text();
    let length = refused.len();
    text[..length].copy_from_slice(refused);
    length
}

// Puts the lines of a file's plan at the start of the buffer, or the line of its refusal, and answers how many bytes that is.
pub fn put_listing(file: &[u8], text: &mut [u8]) -> usize
    requires { length text.old ≡ longest_text }
    ensures { Written file.now text.old result text.new }
{
    match plan::listing(file, text) {
        Ok(length) => length,
        Err(refusal) => put_refused(refusal, text),
    }
}
