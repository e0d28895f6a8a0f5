// An input, of which a part is held. From one number to the next is less than half of that part: where half of it has no number the
// input is taken to end, and the place is the end of that part.
ghost use Rattle.std.specs.Prelude.{◌≡◌, ◌≤◌, ◌<◌, ℕ, IfOk, OnErr, length, take};
ghost use Rattle.std.specs.Io.{ReadsAtMost};
ghost use Rattle.std.specs.Io.KnownBytes.{Consumes, IsAtEnd};
ghost use Rattle.wire.specs.Moved.{Loses};
ghost use Rattle.wire.specs.declared.stream.TheConstants.{HELD};

use crate::numbers;
use std::io::{self, Read};

// Reads until the room is full or the input ends; answers how many bytes that is. After an error the bytes that were read before it stand in
// the room from its start on.
// By hand: the library's `read_exact` takes an input that ends early for an error, and says nothing of what it had read.
pub fn read_full<R: Read>(input: &mut R, room: &mut [u8]) -> io::Result<usize>
    ensures fits { ReadsAtMost result room.new }
    ensures bytes { IfOk result (λ n. Consumes (R.remaining input.old) (R.remaining input.new) (take n room.new)) }
    ensures whole { IfOk result (λ n. n < length room.new → IsAtEnd (R.remaining input.new)) }
    ensures failed { OnErr result ((n : ℕ) × ((n ≤ length room.new) × Consumes (R.remaining input.old) (R.remaining input.new) (take n room.new))) }
{
    let mut done: usize = 0;
    while done < room.len() {
        let n = input.read(&mut room[done..])?;
        if n == 0 {
            return Ok(done);
        }
        done += n;
    }
    Ok(done)
}

// How much is held.
const HELD: usize = 65536;

#[derive(Drop)]
pub struct Input<R> {
    pub reader: R,
    held: [u8; HELD],
    // where the next number is looked for
    at: usize,
    ghost within: { at ≤ HELD },
}

impl<R: Read> Input<R> {
    // Nothing is read before the first refill.
    pub fn new(reader: R) -> Input<R> {
        Input {
            reader,
            held: [0; HELD],
            at: HELD,
        }
    }

    // Reads on, once half of what is held is read.
    #[inline]
    pub fn refill(&mut self) -> io::Result<()>
        ensures { Loses (R.remaining self.old.reader) (R.remaining self.new.reader) }
    {
        if self.at < HELD / 2 {
            Ok(())
        } else {
            self.read_on()
        }
    }

    // What is not read yet moves to the front, and more is read behind it. What stands there is cleared before, so that no digit is read twice.
    #[cold]
    fn read_on(&mut self) -> io::Result<()>
        ensures { Loses (R.remaining self.old.reader) (R.remaining self.new.reader) }
    {
        let kept = HELD - self.at;
        self.held.copy_within(self.at.., 0);
        self.held[kept..].fill(0);
        self.at = 0;
        read_full(&mut self.reader, &mut self.held[kept..])?;
        Ok(())
    }

    // The next number of what is held, also one that its end cuts; none where it has no digit.
    pub fn held_number(&mut self) -> Option<u64>
        ensures { self.new.reader ≡ self.old.reader }
    {
        let Some((value, rest)) = numbers::next(&self.held[self.at..]) else {
            self.at = HELD;
            return None;
        };
        self.at = HELD - rest.len();
        Some(value)
    }

    // The next number, where it stands whole in what is held.
    pub fn number(&mut self) -> Option<u64>
        ensures { self.new.reader ≡ self.old.reader }
    {
        let value = self.held_number()?;
        if self.has_ended() { None } else { Some(value) }
    }

    // The same, after refilling.
    #[inline]
    fn next_number(&mut self) -> io::Result<Option<u64>>
        ensures { Loses (R.remaining self.old.reader) (R.remaining self.new.reader) }
    {
        self.refill()?;
        Ok(self.number())
    }

    // Whether all that is held is passed.
    pub fn has_ended(&self) -> bool {
        self.at == HELD
    }

    // The next numbers of what is held, as many as there is room for.
    pub fn words(&mut self, out: &mut [u64]) -> Option<()>
        ensures { self.new.reader ≡ self.old.reader }
    {
        for word in out {
            *word = self.number()?;
        }
        Some(())
    }

    // The next numbers as bytes, as many as there is room for, or up to the end.
    pub fn bytes(&mut self, out: &mut [u8]) -> io::Result<()>
        ensures { Loses (R.remaining self.old.reader) (R.remaining self.new.reader) }
    {
        for byte in out {
            let Some(value) = self.next_number()? else {
                return Ok(());
            };
            *byte = (value % 256) as u8;
        }
        Ok(())
    }

    // Passes over so many numbers, or to the end.
    pub fn pass(&mut self, count: u64) -> io::Result<()>
        ensures { Loses (R.remaining self.old.reader) (R.remaining self.new.reader) }
    {
        for _ in 0..count {
            if self.next_number()?.is_none() {
                return Ok(());
            }
        }
        Ok(())
    }
}
