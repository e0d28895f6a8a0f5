// The answer of a run.

// The register of the answer row, and the doublings and the additions made.
#[derive(Clone, Copy, Debug, PartialEq, Eq)]
pub struct Ran {
    pub answer: u64,
    pub doublings: u64,
    pub additions: u64,
}
