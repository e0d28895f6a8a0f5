// A paused walk: the order of the columns in eight places, columns counted from 1, and eight signs, sign j that of column j.
// Places past d are 0.
#[derive(Clone, Copy, Debug, PartialEq, Eq)]
pub struct Walk {
    pub d: u64,
    pub order: [u8; 8],
    pub signs: [i8; 8],
}
