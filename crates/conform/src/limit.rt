// The most that a request can lend, which is somewhat more than the calls accept, but unpack and body, which take a file of any length. A
// request that lends more is refused by a line that says so, and what it lends is passed over.
ghost use Rattle.wire.specs.Moved.{Gains, Loses};

use crate::LARGE;
use crate::call::Call;
use crate::request::Lent;
use crate::stop::Stop;
use std::fmt::Write as _;
use std::io::{Read, Write};
use wire::line::Line;
use wire::stream::Input;

// The most bytes of start, and the most words. Of bits there are at most LARGE.
pub const START: usize = 64;

pub const WORDS: usize = 128;

pub fn passed(call: Option<Call>, lent: Lent) -> bool {
    let most_output = call.and_then(Call::most_output).unwrap_or(u64::MAX);
    lent.start > START as u64
        || lent.bits > LARGE as u64
        || lent.words > WORDS as u64
        || lent.out > most_output
}

// Says so, and passes over what is lent.
pub fn refuse<R: Read, W: Write>(
    input: &mut Input<R>,
    output: &mut W,
    lent: Lent,
) -> Result<(), Stop>
    ensures read { Loses (R.remaining input.old.reader) (R.remaining input.new.reader) }
    ensures written { Gains (W.contents output.old) (W.contents output.new) }
{
    let mut line = Line::<256>::new();
    write!(
        line,
        "more is lent than conform holds: start {} bits {} words {} output {}",
        lent.start, lent.bits, lent.words, lent.out
    )?;
    line.end(output)?;
    let moduli = u64::from(lent.has_modulus);
    for count in [lent.start, lent.bits, moduli, lent.words] {
        input.pass(count)?;
    }
    if input.has_ended() {
        Err(Stop::Cut)
    } else {
        Ok(())
    }
}
