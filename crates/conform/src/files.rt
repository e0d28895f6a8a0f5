// One line per call on plan files.
use crate::Answer;
use crate::lent_plan::Shown;
use plan::{Plan, Refusal, Unpacked};
use refusal::parts;
use std::fmt::{self, Write};
use wire::part::{first, first_mut};
use wire::show::{Barred, Bytes};

fn packed(answer: Result<(), Refusal>, file: &[u8], line: &mut Answer) -> fmt::Result {
    let (refusal, ()) = parts(answer, ());
    write!(line, ": refusal {refusal} file{}", Bytes(file))
}

pub fn pack(plan: &Plan, size: u64, line: &mut Answer) -> fmt::Result {
    write!(line, "pack {}", Shown(plan))?;
    let mut lent = [170u8; 640];
    let file = first_mut(&mut lent, size);
    let answer = plan::pack(plan, file);
    packed(answer, file, line)
}

fn unpacked(answer: Result<Unpacked, Refusal>, line: &mut Answer) -> fmt::Result {
    let none = Unpacked { d: 0, l: 0, row: 0 };
    let (refusal, said) = parts(answer, none);
    write!(
        line,
        ": refusal {refusal} d {} l {} row {}",
        said.d, said.l, said.row
    )
}

pub fn unpack(file: &[u8], line: &mut Answer) -> fmt::Result {
    write!(line, "unpack{}", Bytes(file))?;
    unpacked(plan::unpack(file), line)
}

pub fn body(file: &[u8], line: &mut Answer) -> fmt::Result {
    write!(
        line,
        "body{}: bytes{}",
        Bytes(file),
        Bytes(plan::body(file))
    )
}

// The whole buffer, and its text.
fn listed(answer: Result<usize, Refusal>, buffer: &[u8], line: &mut Answer) -> fmt::Result {
    let (refusal, length) = parts(answer, 0);
    let text = first(buffer, length as u64);
    write!(
        line,
        ": refusal {refusal} length {length} buffer{} text {}",
        Bytes(buffer),
        Barred(text)
    )
}

pub fn listing(file: &[u8], size: u64, line: &mut Answer) -> fmt::Result {
    write!(line, "listing{}", Bytes(file))?;
    let mut lent = [170u8; 8600];
    let buffer = first_mut(&mut lent, size);
    let answer = plan::listing(file, buffer);
    listed(answer, buffer, line)
}
