// Text as it grows, in an array that has room for the longest listing. The other files of this crate append its pieces.
ghost use Rattle.std.specs.Prelude.{◌≡◌, ◌∷◌, ◌++◌, ◌≤◌, [], List, ℕ, length, take};
ghost use Rattle.ladder.specs.Numbers.{longest_text};
ghost use Rattle.text.specs.Inner.{Room};

use std::marker::Model;

// The length of the longest text: d 8, l 576, every entry 2^576.
pub const LONGEST_TEXT: usize = 8589;

// The text is the first `length` bytes. Only this crate appends to it, and asks for the room each time.
#[derive(Drop)]
pub struct Lines {
    bytes: [u8; LONGEST_TEXT],
    length: usize,
}

impl Model for Lines {
    ghost Value = { List ℕ };

    ghost view = { λ s. take s.length s.bytes };

    ghost invariant = { λ s. s.length ≤ 8589 };
}

impl Lines {
    // No text yet.
    pub fn new() -> Lines
        ensures { result ≡ [] }
    {
        Lines {
            bytes: [0; LONGEST_TEXT],
            length: 0,
        }
    }

    // The text so far.
    #[tactic(auto, unfolding(ladder::specs::Numbers::longest_text))]
    pub fn text(&self) -> &[u8]
        ensures text { result.now ≡ self.now }
        ensures fits { length result.now ≤ longest_text }
    {
        &self.bytes[..self.length]
    }

    // Appends a character.
    #[tactic(auto, unfolding(ladder::specs::Numbers::longest_text))]
    pub(crate) fn byte(&mut self, byte: u8)
        requires { Room self.old (byte ∷ []) }
        ensures { self.new ≡ self.old ++ byte ∷ [] }
    {
        self.bytes[self.length] = byte;
        self.length += 1;
    }

    // Appends a word.
    #[tactic(auto, unfolding(ladder::specs::Numbers::longest_text))]
    pub(crate) fn bytes(&mut self, bytes: &[u8])
        requires { Room self.old bytes.now }
        ensures { self.new ≡ self.old ++ bytes.now }
    {
        let end = self.length + bytes.len();
        self.bytes[self.length..end].copy_from_slice(bytes);
        self.length = end;
    }
}
