// A loose plan: its five parts as they are lent to a call.
#![tactic(auto)]

// The start order, columns from 1, and the bits as bytes, filling bits last. A value may hold anything: each call judges it.
#[derive(Clone, Copy, Debug, PartialEq, Eq)]
pub struct Plan<'a> {
    pub d: u64,
    pub l: u64,
    pub start: &'a [u8],
    pub bits: &'a [u8],
    pub row: u64,
}
