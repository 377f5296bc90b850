// Eight digits in a word.
ghost use Rattle.std.specs.Prelude.{◌≡◌, ◌-◌, ◌*◌};
ghost use Rattle.byte_words.specs.Words.{digits_in, value_in};

use std::num::wrapping_add_u64;

// Whether each of a word's bytes is a digit: its left half is 0, and 6 more leave it 0.
pub fn all_digits(word: u64) -> bool
    ensures { result ≡ digits_in 8 word }
{
    (word | wrapping_add_u64(word, 0x0606060606060606)) & 0xf0f0f0f0f0f0f0f0 == 0
}

// The number that the right halves of a word's bytes write: two neighbours at once, then four, then eight.
pub fn digits_value(word: u64) -> u64
    ensures { result ≡ value_in 8 word }
{
    let ones = word & 0x0f0f0f0f0f0f0f0f;
    let twos = (ones + (ones >> 8) * 10) & 0x00ff00ff00ff00ff;
    let fours = (twos + (twos >> 16) * 100) & 0x0000ffff0000ffff;
    (fours & 0xffffffff) + (fours >> 32) * 10000
}
