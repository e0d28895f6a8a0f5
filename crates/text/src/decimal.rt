// Numbers in decimal.
ghost use Rattle.std.specs.Prelude.{◌≡◌, ◌∷◌, ◌++◌, ◌<◌};
ghost use Rattle.ladder.specs.Listing.{character, decimal};
ghost use Rattle.text.specs.Inner.{Room};

use crate::lines::Lines;

// A digit as a character: 0 to 9, then a to f.
#[tactic(auto, unfolding(ladder::specs::Listing::character))]
pub fn character(x: u64) -> u8
    requires { x < 16 }
    ensures { result ≡ character x }
{
    b"0123456789abcdef"[x as usize]
}

impl Lines {
    // A number with no leading zeros, digit by digit.
    #[tactic(auto, using(crate::proofs::DecimalDigits::digit_by_digit))]
    fn digits(&mut self, n: u64)
        requires { Room self.old (decimal n) }
        ensures { self.new ≡ self.old ++ decimal n }
    {
        if n >= 10 {
            self.digits(n / 10);
        }
        self.byte(character(n % 10));
    }

    // A number with no leading zeros. Up to three digits, as many as a listing's numbers have, are appended at once.
    #[tactic(auto, using(crate::proofs::DecimalDigits::at_once))]
    pub(crate) fn decimal(&mut self, n: u64)
        requires { Room self.old (decimal n) }
        ensures { self.new ≡ self.old ++ decimal n }
    {
        if n < 10 {
            self.byte(character(n));
        } else if n < 100 {
            self.bytes(&[character(n / 10), character(n % 10)]);
        } else if n < 1000 {
            self.bytes(&[
                character(n / 100),
                character(n / 10 % 10),
                character(n % 10),
            ]);
        } else {
            self.digits(n);
        }
    }

    // A space and a number.
    pub(crate) fn number(&mut self, n: u64)
        requires { Room self.old (32 ∷ decimal n) }
        ensures { self.new ≡ self.old ++ 32 ∷ decimal n }
    {
        self.byte(b' ');
        self.decimal(n);
    }
}
