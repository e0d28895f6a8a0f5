// The length of each buffer that depends on both d and l, which were judged before: so no product wraps.
ghost use Rattle.std.specs.Prelude.{◌≡◌};
ghost use Rattle.ladder.specs.Numbers.{scalars_length, values_length, bits_length, trace_length};
ghost use Rattle.ladder.specs.PlanFile.{file_length};
ghost use Rattle.refuse.specs.Inner.{InRange};

// The bytes of a plan file's trailer.
pub const TRAILER_SIZE: usize = 12;

pub fn scalars_length(d: u64, l: u64) -> u64
    requires { InRange d l }
    ensures { result ≡ scalars_length d l }
{
    d * ((l + 63) / 64)
}

pub fn values_length(d: u64, l: u64) -> u64
    requires { InRange d l }
    ensures { result ≡ values_length d l }
{
    d * (l / 64 + 1)
}

pub fn bits_length(d: u64, l: u64) -> u64
    requires { InRange d l }
    ensures { result ≡ bits_length d l }
{
    (l * d + 7) / 8
}

pub fn trace_length(d: u64, l: u64) -> u64
    requires { InRange d l }
    ensures { result ≡ trace_length d l }
{
    l * (d + 1) * (d + 2)
}

// Start order, bits and trailer.
pub fn file_length(d: u64, l: u64) -> u64
    requires { InRange d l }
    ensures { result ≡ file_length d l }
{
    d + bits_length(d, l) + TRAILER_SIZE as u64
}
