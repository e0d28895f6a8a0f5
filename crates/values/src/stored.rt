// Decoded values as words: d values of k words each, lowest word first.
ghost use Rattle.std.specs.Prelude.{◌≡◌, ◌+◌, ◌*◌, ◌/◌, ◌^◌, ◌<◌, ◌≤◌, length};
ghost use Rattle.ladder.specs.Numbers.{number_of, words_of, value_words};
ghost use Rattle.values.specs.Inner.{stored, stored_then};

// The words of one value: floor(l / 64) + 1.
#[tactic(auto, unfolding(ladder::specs::Numbers::value_words))]
pub fn value_words(l: usize) -> usize
    ensures { result ≡ value_words l }
{
    l / 64 + 1
}

// Word w of each value becomes the word held for its column.
#[tactic(auto, using(crate::proofs::Words::stored_next), unfolding(crate::specs::Inner::stored))]
pub fn store_words(held: &[u64], k: usize, w: usize, values: &mut [u64])
    requires { (w < k) × (length values.old ≡ length held.now * k) }
    ensures { values.new ≡ stored (length held.now) k w held.now values.old }
{
    // By hand: after a loop over chunks_exact_mut a proof knows no word of the values
    for (j, word) in held.iter().enumerate() {
        values[j * k + w] = *word;
    }
}

// Where no digit of the current word is to come, the held words are full: they are stored.
#[tactic(auto, unfolding(crate::specs::Inner::stored_then))]
pub fn store_full(held: &[u64], k: usize, left: usize, values: &mut [u64])
    requires { (left / 64 < k) × (length values.old ≡ length held.now * k) }
    ensures { values.new ≡ stored_then (length held.now) k left held.now values.old }
{
    if left % 64 == 0 {
        store_words(held, k, left / 64, values);
    }
}

// One more, with the carry as far as it goes.
#[tactic(auto, using(crate::proofs::Words::carry_starts, crate::proofs::Words::carry_ends))]
pub fn increment(words: &mut [u64])
    requires { number_of words.old + 1 < 2 ^ (64 * length words.old) }
    ensures { words.new ≡ words_of (length words.old) (number_of words.old + 1) }
{
    for word in words {
        *word = word.wrapping_add(1);
        if *word != 0 {
            return;
        }
    }
}
