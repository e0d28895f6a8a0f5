// One line per run: the plan, the modulus and the elements, and after the colon what the run answered and its registers.
use crate::Answer;
use crate::lent_plan::Shown;
use plan::{Plan, Ran, Refusal};
use refusal::parts;
use std::fmt::{self, Write};
use wire::part::first_mut;
use wire::show::Words;

#[derive(Clone, Copy)]
pub struct Run<'a> {
    pub plan: Plan<'a>,
    pub modulus: u64,
    pub elements: &'a [u64],
    // how many registers are lent
    pub registers: u64,
}

fn ran(answer: Result<Ran, Refusal>, registers: &[u64], line: &mut Answer) -> fmt::Result {
    let none = Ran {
        answer: 0,
        doublings: 0,
        additions: 0,
    };
    let (refusal, r) = parts(answer, none);
    write!(line, ": refusal {refusal} answer {}", r.answer)?;
    write!(
        line,
        " doublings {} additions {} registers{}",
        r.doublings,
        r.additions,
        Words(registers)
    )
}

// The line of a run by one of the two calls.
fn put_run<F: FnOnce(&Run, &mut [u64]) -> Result<Ran, Refusal>>(
    name: &str,
    run: Run,
    call: F,
    line: &mut Answer,
) -> fmt::Result
    requires { F.IsAlwaysCallable call }
{
    write!(
        line,
        "{name} {} modulus {} of{}",
        Shown(&run.plan),
        run.modulus,
        Words(run.elements)
    )?;
    let mut lent = [170u64; 80];
    let registers = first_mut(&mut lent, run.registers);
    let answer = call(&run, registers);
    ran(answer, registers, line)
}

pub fn plain(run: Run, line: &mut Answer) -> fmt::Result {
    let call = |run: &Run, registers: &mut [u64]| {
        plan::plain_run(&run.plan, run.modulus, run.elements, registers)
    };
    put_run("plain", run, call, line)
}

pub fn difference(run: Run, line: &mut Answer) -> fmt::Result {
    let call = |run: &Run, registers: &mut [u64]| {
        plan::difference_run(&run.plan, run.modulus, run.elements, registers)
    };
    put_run("difference", run, call, line)
}
