// One line per call: what was lent, and after the colon what the call answered and what the lent output then holds.
use crate::Answer;
use crate::lent_plan::Shown;
use plan::{Plan, Refusal, Traced};
use refusal::parts;
use std::fmt::{self, Write};
use wire::part::first_mut;
use wire::show::{Bytes, Words};

fn encoded(
    answer: Result<u64, Refusal>,
    start: &[u8],
    bits: &[u8],
    line: &mut Answer,
) -> fmt::Result {
    let (refusal, row) = parts(answer, 0);
    write!(
        line,
        ": refusal {refusal} row {row} start{} bits{}",
        Bytes(start),
        Bytes(bits)
    )
}

pub fn encode(
    d: u64,
    l: u64,
    scalars: &[u64],
    start: &mut [u8],
    bits: &mut [u8],
    line: &mut Answer,
) -> fmt::Result {
    write!(line, "encode {d} {l} of{}", Words(scalars))?;
    let answer = plan::encode(d, l, scalars, start, bits);
    encoded(answer, start, bits, line)
}

fn decoded(answer: Result<(), Refusal>, values: &[u64], line: &mut Answer) -> fmt::Result {
    let (refusal, ()) = parts(answer, ());
    write!(line, ": refusal {refusal} values{}", Words(values))
}

pub fn decode(plan: &Plan, values: &mut [u64], line: &mut Answer) -> fmt::Result {
    write!(line, "decode {}", Shown(plan))?;
    let answer = plan::decode(plan, values);
    decoded(answer, values, line)
}

fn checked(answer: Result<bool, Refusal>, line: &mut Answer) -> fmt::Result {
    let (refusal, yes) = parts(answer, false);
    let said = if yes { "yes" } else { "no" };
    write!(line, ": refusal {refusal} {said}")
}

pub fn check(plan: &Plan, scalars: &[u64], line: &mut Answer) -> fmt::Result {
    write!(line, "check {} of{}", Shown(plan), Words(scalars))?;
    checked(plan::check(plan, scalars), line)
}

fn traced(answer: Result<Traced, Refusal>, out: &[u8], line: &mut Answer) -> fmt::Result {
    let none = Traced {
        doublings: 0,
        additions: 0,
    };
    let (refusal, counts) = parts(answer, none);
    write!(
        line,
        ": refusal {refusal} doublings {} additions {} out{}",
        counts.doublings,
        counts.additions,
        Bytes(out)
    )
}

pub fn trace(plan: &Plan, size: u64, line: &mut Answer) -> fmt::Result {
    write!(line, "trace {}", Shown(plan))?;
    let mut lent = [170u8; 51904];
    let out = first_mut(&mut lent, size);
    let answer = plan::trace(plan, out);
    traced(answer, out, line)
}
