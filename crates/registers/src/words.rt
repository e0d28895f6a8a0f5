// The registers of a run.

// The d + 1 registers of a plan of dimension d, in nine words, of which the others are not looked at. A struct, since a closure that captures
// a reference ensures nothing where a bare array comes in or goes out.
#[derive(Clone, Copy)]
pub struct Registers {
    pub words: [u64; 9],
}
