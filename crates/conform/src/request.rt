// A request is a run of numbers: its call, d, l, the row, how much is lent of start, bits, words and output, and then what the lent start,
// bits and words hold. A step has its number for l, its order for start and its signs for bits. A run has its modulus before the words,
// which are its elements, and its registers for output. A file is the bits of a request that takes one. Output is lent filled with 170 in
// every byte or word.
ghost use Rattle.std.specs.Prelude.{◌≡◌};
ghost use Rattle.wire.specs.Moved.{Gains, Loses};

use crate::call::Call;
use crate::runs::Run;
use crate::stop::Stop;
use crate::{Answer, LARGE, calls, files, limit, runs, step};
use plan::Plan;
use std::fmt::{self, Write as _};
use std::io::{self, Read, Write};
use wire::line::Line;
use wire::part::first_mut;
use wire::stream::Input;

// How much a request lends of each.
#[derive(Clone, Copy)]
pub struct Lent {
    pub start: u64,
    pub bits: u64,
    pub has_modulus: bool,
    pub words: u64,
    // of output: a trace, registers, a file or a text
    pub out: u64,
}

// What stands before the lent numbers.
#[derive(Clone, Copy)]
struct Head {
    call: Option<Call>,
    d: u64,
    l: u64,
    row: u64,
    lent: Lent,
}

// The answer to a request whose lent buffers hold what it says, put into a line.
// By hand: start, bits and words stand apart, since encode writes the first two and decode the last
fn put_answer(
    head: Head,
    modulus: u64,
    start: &mut [u8],
    bits: &mut [u8],
    words: &mut [u64],
    line: &mut Answer,
) -> fmt::Result {
    let Head {
        call,
        d,
        l,
        row,
        lent,
    } = head;
    let out = lent.out;
    let Some(call) = call else {
        return write!(line, "no such call");
    };
    let plan = Plan {
        d,
        l,
        start: &*start,
        bits: &*bits,
        row,
    };
    let run = Run {
        plan,
        modulus,
        elements: &*words,
        registers: out,
    };
    match call {
        Call::Encode => calls::encode(d, l, words, start, bits, line),
        Call::Decode => calls::decode(&plan, words, line),
        Call::Check => calls::check(&plan, words, line),
        Call::Trace => calls::trace(&plan, out, line),
        Call::Step => step::step(d, start, bits, l, line),
        Call::Plain => runs::plain(run, line),
        Call::Difference => runs::difference(run, line),
        Call::Pack => files::pack(&plan, out, line),
        Call::Unpack => files::unpack(bits, line),
        Call::Body => files::body(bits, line),
        Call::Listing => files::listing(bits, out, line),
    }
}

fn read_head<R: Read>(input: &mut Input<R>) -> Option<Head>
    ensures { input.new.reader ≡ input.old.reader }
{
    let mut numbers = [0u64; 8];
    input.words(&mut numbers)?;
    let [call, d, l, row, start, bits, words, out] = numbers;
    let call = Call::try_from(call).ok();
    let has_modulus = call.is_some_and(Call::has_modulus);
    let lent = Lent {
        start,
        bits,
        has_modulus,
        words,
        out,
    };
    Some(Head {
        call,
        d,
        l,
        row,
        lent,
    })
}

// Reads the lent start and bits.
fn read_bytes<R: Read>(input: &mut Input<R>, start: &mut [u8], bits: &mut [u8]) -> Result<(), Stop>
    ensures { Loses (R.remaining input.old.reader) (R.remaining input.new.reader) }
{
    input.bytes(start)?;
    input.bytes(bits)?;
    if input.has_ended() {
        return Err(Stop::Cut);
    }
    input.refill()?;
    Ok(())
}

// The modulus of a run, 0 where there is none.
fn read_modulus<R: Read>(input: &mut Input<R>, has_modulus: bool) -> Option<u64>
    ensures { input.new.reader ≡ input.old.reader }
{
    if has_modulus { input.number() } else { Some(0) }
}

// Reads what is lent, and answers, where the input does not end before.
fn answer_held<R: Read, W: Write>(
    input: &mut Input<R>,
    output: &mut W,
    line: &mut Answer,
    head: Head,
) -> Result<(), Stop>
    ensures read { Loses (R.remaining input.old.reader) (R.remaining input.new.reader) }
    ensures written { Gains (W.contents output.old) (W.contents output.new) }
{
    let lent = head.lent;
    let mut held_start = [0u8; limit::START];
    let start = first_mut(&mut held_start, lent.start);
    let mut held_bits = [0u8; LARGE];
    let bits = first_mut(&mut held_bits, lent.bits);
    read_bytes(input, start, bits)?;
    let modulus = read_modulus(input, lent.has_modulus).ok_or(Stop::Cut)?;
    let mut held_words = [0u64; limit::WORDS];
    let words = first_mut(&mut held_words, lent.words);
    input.words(words).ok_or(Stop::Cut)?;
    put_answer(head, modulus, start, bits, words, line)?;
    line.end(output)?;
    Ok(())
}

// Answers the next request, by a line that is empty before and after.
pub fn answer<R: Read, W: Write>(
    input: &mut Input<R>,
    output: &mut W,
    line: &mut Answer,
) -> Result<(), Stop>
    ensures read { Loses (R.remaining input.old.reader) (R.remaining input.new.reader) }
    ensures written { Gains (W.contents output.old) (W.contents output.new) }
{
    let head = read_head(input).ok_or(Stop::Cut)?;
    if limit::passed(head.call, head.lent) {
        return limit::refuse(input, output, head.lent);
    }
    answer_held(input, output, line, head)
}

// The line of a request in which the input ends.
pub fn cut<W: Write>(output: &mut W) -> io::Result<()>
    ensures { Gains (W.contents output.old) (W.contents output.new) }
{
    let mut line = Line::<64>::new();
    write!(line, "the input ends within a request")?;
    line.end(output)
}
