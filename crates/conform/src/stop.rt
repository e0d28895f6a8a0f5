// Why no more requests are answered.
use std::{fmt, io};

#[derive(Debug, Drop)]
pub enum Stop {
    // the input ends within a request
    Cut,
    Failed(io::Error),
}

impl From<io::Error> for Stop {
    fn from(error: io::Error) -> Stop {
        Stop::Failed(error)
    }
}

impl From<fmt::Error> for Stop {
    fn from(error: fmt::Error) -> Stop {
        Stop::Failed(error.into())
    }
}
