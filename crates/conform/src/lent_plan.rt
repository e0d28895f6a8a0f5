// How the plan that a request lends is shown.
use plan::Plan;
use std::fmt::{self, Display, Formatter};
use wire::show::Bytes;

#[derive(Clone, Copy)]
pub struct Shown<'a>(pub &'a Plan<'a>);

impl Display for Shown<'_> {
    fn fmt<W: fmt::Write>(&self, f: &mut Formatter<W>) -> fmt::Result {
        let Plan {
            d,
            l,
            start,
            bits,
            row,
        } = *self.0;
        write!(
            f,
            "{d} {l} start{} bits{} row {row}",
            Bytes(start),
            Bytes(bits)
        )
    }
}
