// Why a call refuses: the table of refusals as a type, with its numbers and its words. The calls answer `Result<_, Refusal>`.
#![tactic(auto)]

ghost use Rattle.std.specs.Prelude.{◌≡◌, Some};
ghost use Rattle.refusal.specs.Answers.{number};
ghost use Rattle.refusal.specs.Words.{words};

mod answer;

pub use answer::parts;
use std::error::Error;
use std::fmt;

// The number of an answer that refuses nothing.
pub const OK: u64 = 0;

// A line of the table. What is refused is said in full where it is judged.
#[derive(Clone, Copy, Debug, PartialEq, Eq)]
pub enum Refusal {
    Dim = 1,
    Length = 2,
    Shape = 3,
    Scalar = 4,
    Order = 5,
    Row = 6,
    Modulus = 7,
    Element = 8,
    Trailer = 9,
    Big = 10,
}

impl Refusal {
    // The table's number.
    pub fn number(self) -> u64
        ensures { result ≡ number self }
    {
        self as u64
    }
}

impl fmt::Display for Refusal {
    ghost output = { λ refusal. Some (words refusal) };

    fn fmt<W: fmt::Write>(&self, f: &mut fmt::Formatter<W>) -> fmt::Result {
        f.write_str(match self {
            Refusal::Dim => "d is not 1 to 8",
            Refusal::Length => "l is not 1 to 576",
            Refusal::Shape =>
                "a buffer has another length than the call asks, or a step's number is not below 2^d",
            Refusal::Scalar => "a scalar is not below 2^l",
            Refusal::Order =>
                "an order does not have each of 1 to d once, or a walk state has another fault",
            Refusal::Row => "the answer row is not 1 to d+1",
            Refusal::Modulus => "a modulus is above 2^63",
            Refusal::Element => "an element is not below a modulus other than 0",
            Refusal::Trailer =>
                "a plan file is shorter than 12 bytes, does not end with the mark `dmul`, or has a wrong back distance",
            Refusal::Big => "more than 4,096 bytes are to be listed",
        })
    }
}

impl Error for Refusal {}
