// The public calls `unpack` and `body`: what a plan file says, and the part of it that is its body.
ghost use Rattle.refusal.specs.Answers.{refusal_of, answer_or};
ghost use Rattle.planfile.specs.Promise.{UnpackPromise, BodyPromise, no_numbers};

use crate::whole::judged;
use refusal::Refusal;

// What unpack answers: d, l and the answer row.
#[derive(Clone, Copy, Debug, PartialEq, Eq)]
pub struct Unpacked {
    pub d: u64,
    pub l: u64,
    pub row: u64,
}

// The numbers of a plan file, of any bytes at all. Refuses 9, 1, 2, 9, 5, 6.
pub fn unpack(file: &[u8]) -> Result<Unpacked, Refusal>
    ensures { UnpackPromise file.now (refusal_of result) (answer_or no_numbers result) }
{
    let trailer = judged(file)?;
    Ok(trailer.says)
}

// The body of a plan file, start order and then bits: a part of the caller's own bytes. Where unpack refuses, the empty part at their
// start.
pub fn body(file: &[u8]) -> &[u8]
    ensures { BodyPromise file.now file.entry.ref_ptr result.now result.ref_ptr }
{
    match judged(file) {
        Ok(trailer) => trailer.body(),
        Err(_) => &file[..0],
    }
}
