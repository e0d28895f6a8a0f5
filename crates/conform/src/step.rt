// One line per step of a paused walk, whose order and signs a request has for start and bits.
use crate::Answer;
use plan::{Unstepped, Walk};
use std::array;
use std::fmt::{self, Display, Formatter, Write};
use wire::show::Bytes;

// Eight bytes of what is lent, 0 where it has fewer.
fn eight(lent: &[u8]) -> [u8; 8] {
    array::from_fn(|i| lent.get(i).copied().unwrap_or(0))
}

#[derive(Clone, Copy)]
struct State(Walk);

impl Display for State {
    fn fmt<W: fmt::Write>(&self, f: &mut Formatter<W>) -> fmt::Result {
        let State(Walk { d, order, signs }) = self;
        write!(
            f,
            "{d} order{} signs{}",
            Bytes(order),
            Bytes(&signs.map(i8::cast_unsigned))
        )
    }
}

// What a step of a walk answered: on refusal the state that it hands back.
fn stepped(answer: Result<Walk, Unstepped>, line: &mut Answer) -> fmt::Result {
    let (refusal, walk) = match answer {
        Ok(next) => (plan::OK, next),
        Err(unstepped) => (unstepped.refusal.number(), unstepped.walk),
    };
    write!(line, ": refusal {refusal} walk {}", State(walk))
}

pub fn step(d: u64, order: &[u8], signs: &[u8], bits: u64, line: &mut Answer) -> fmt::Result {
    let signs = eight(signs).map(u8::cast_signed);
    let walk = Walk {
        d,
        order: eight(order),
        signs,
    };
    write!(line, "step {} by {bits}", State(walk))?;
    stepped(walk.step(bits), line)
}
