// A number of several words in hexadecimal.
ghost use Rattle.std.specs.Prelude.{◌≡◌, ◌++◌, ◌*◌, ◌/◌, ◌%◌, ◌^◌, ◌≤◌, ◌<◌, length};
ghost use Rattle.ladder.specs.Numbers.{number_of};
ghost use Rattle.ladder.specs.Listing.{hexadecimal};
ghost use Rattle.text.specs.Inner.{Room};

use crate::decimal::character;
use crate::lines::Lines;

// Digit i, from the lowest.
fn hex_digit(words: &[u64], i: usize) -> u64
    requires { i < 16 * length words.now }
    ensures { result ≡ number_of words.now / 16 ^ i % 16 }
{
    (words[i / 16] >> (4 * (i % 16))) % 16
}

// How many digits there are up to the highest that is not 0; for 0 one.
#[tactic(auto, using(crate::proofs::HexDigits::above_found))]
fn hex_length(words: &[u64]) -> usize
    requires { (1 ≤ length words.now) × (length words.now ≤ 10) }
    ensures { result ≡ length (hexadecimal (number_of words.now)) }
{
    for i in (1..16 * words.len()).rev() {
        if hex_digit(words, i) != 0 {
            return i + 1;
        }
    }
    1
}

impl Lines {
    // A number with no leading zeros.
    #[tactic(auto, using(crate::proofs::HexDigits::hex_next, std::proofs::lemmas::Grind::common_steps))]
    pub(crate) fn hexadecimal(&mut self, words: &[u64])
        requires { (1 ≤ length words.now) × ((length words.now ≤ 10) × Room self.old (hexadecimal (number_of words.now))) }
        ensures { self.new ≡ self.old ++ hexadecimal (number_of words.now) }
    {
        for i in (0..hex_length(words)).rev() {
            self.byte(character(hex_digit(words, i)));
        }
    }
}
