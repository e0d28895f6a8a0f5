// The calls of the library, by their numbers in a request.
#[derive(Clone, Copy)]
pub enum Call {
    Encode,
    Decode,
    Check,
    Trace,
    Step,
    Plain,
    Difference,
    Pack,
    Unpack,
    Body,
    Listing,
}

// A number that is no call's.
#[derive(Clone, Copy)]
pub struct NoSuchCall;

impl TryFrom<u64> for Call {
    type Error = NoSuchCall;

    fn try_from(number: u64) -> Result<Call, NoSuchCall> {
        match number {
            1 => Ok(Call::Encode),
            2 => Ok(Call::Decode),
            3 => Ok(Call::Check),
            4 => Ok(Call::Trace),
            5 => Ok(Call::Step),
            6 => Ok(Call::Plain),
            7 => Ok(Call::Difference),
            8 => Ok(Call::Pack),
            9 => Ok(Call::Unpack),
            10 => Ok(Call::Body),
            11 => Ok(Call::Listing),
            _ => Err(NoSuchCall),
        }
    }
}

impl Call {
    // A run has its modulus before its elements.
    pub fn has_modulus(self) -> bool {
        matches!(self, Call::Plain | Call::Difference)
    }

    // The most output that can be lent, for calls that have any.
    pub fn most_output(self) -> Option<u64> {
        match self {
            Call::Trace => Some(51904),
            Call::Plain | Call::Difference => Some(80),
            Call::Pack => Some(640),
            Call::Listing => Some(8600),
            _ => None,
        }
    }
}
