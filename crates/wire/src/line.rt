// A line, put together in a buffer and written in one piece.
ghost use Rattle.std.specs.Prelude.{◌≤◌, ℕ, OnOk, OnErr, length, take};
ghost use Rattle.std.specs.Io.KnownBytes.{Appends};
ghost use Rattle.wire.specs.Moved.{Gains};

use std::fmt;
use std::io::{self, Write};

// Of at most N bytes: where there is no room it is cut.
#[derive(Drop)]
pub struct Line<const N: usize> {
    bytes: [u8; N],
    length: usize,
    ghost within: { length ≤ N },
}

impl<const N: usize> Line<N> {
    pub fn new() -> Line<N> {
        Line {
            bytes: [0; N],
            length: 0,
        }
    }

    // Puts the first of the bytes for which there is room.
    fn put(&mut self, bytes: &[u8]) {
        let room = &mut self.bytes[..];
        let n = bytes.len().min(N - self.length);
        let end = self.length + n;
        room[self.length..end].copy_from_slice(&bytes[..n]);
        self.length = end;
    }

    // Ends the line and writes it, or its first part where an error comes. Then the line is empty again.
    pub fn end<W: Write>(&mut self, output: &mut W) -> io::Result<()>
        ensures { Gains (W.contents output.old) (W.contents output.new) }
    {
        self.put(b"\n");
        let bytes = &self.bytes[..];
        write_full(output, &bytes[..self.length])?;
        self.length = 0;
        Ok(())
    }
}

impl<const N: usize> fmt::Write for Line<N> {
    // Never fails: what has no room is left out.
    fn write_str(&mut self, text: &str) -> fmt::Result {
        self.put(text.as_bytes());
        Ok(())
    }
}

// Writes all bytes. After an error the first of them are written, and no others.
// By hand: `write_all` promises nothing of what an error leaves, and tries again where it is interrupted
fn write_full<W: Write>(output: &mut W, bytes: &[u8]) -> io::Result<()>
    ensures whole { OnOk result (Appends (W.contents output.old) (W.contents output.new) bytes.now) }
    ensures failed { OnErr result ((n : ℕ) × ((n ≤ length bytes.now) × Appends (W.contents output.old) (W.contents output.new) (take n bytes.now))) }
{
    let mut done: usize = 0;
    while done < bytes.len() {
        let n = output.write(&bytes[done..])?;
        if n == 0 {
            return Err(io::ErrorKind::WriteZero.into());
        }
        done += n;
    }
    Ok(())
}
