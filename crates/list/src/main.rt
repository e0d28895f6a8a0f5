// The listing program: what stands on standard input, a plan file, as lines on standard output. One byte more than is listed is read, so
// that the library can tell.
#![tactic(auto)]

mod written;

use std::io;
use wire::stream;

fn main(rt: HostRuntime) -> io::Result<()> {
    let mut file = [0u8; plan::LONGEST_FILE + 1];
    let n = stream::read_full(&mut rt.stdin(), &mut file)?;
    let mut text = [0u8; plan::LONGEST_TEXT];
    let length = written::put_listing(&file[..n], &mut text);
    rt.write_all(&text[..length])
}
