// Answers a stream of requests, one line each, so that any outside model can be held against the library. The first number of standard
// input says how many requests follow. The stored requests stand in ../stdin; what they must give, ../stdout, is the model's
// (../../../model), never what this program wrote.
#![tactic(auto)]

mod call;
mod calls;
mod files;
mod lent_plan;
mod limit;
mod request;
mod runs;
mod step;
mod stop;

use std::io;
use stop::Stop;
use wire::line::Line;
use wire::stream::Input;

// How much is held of a file and of an answer.
const LARGE: usize = 65536;

// The line of an answer.
type Answer = Line<LARGE>;

fn main(rt: HostRuntime) -> io::Result<()> {
    let mut input = Input::new(rt.stdin());
    let mut output = rt.stdout();
    // One line for all answers, so that its room is cleared once.
    let mut line = Answer::new();
    input.refill()?;
    let count = input.held_number().unwrap_or(0);
    for _ in 0..count {
        input.refill()?;
        match request::answer(&mut input, &mut output, &mut line) {
            Ok(()) => {}
            Err(Stop::Cut) => return request::cut(&mut output),
            Err(Stop::Failed(e)) => return Err(e),
        }
    }
    Ok(())
}
