// Letters and spaces: the alphabets of the class tests.
#![tactic(auto)]

ghost use Rattle.std.specs.Prelude.{◌≡◌, true, ◌≤◌, length, take};
ghost use Rattle.content.specs.Content.{all};
ghost use Rattle.content.specs.Letters.{in_alphabet};
ghost use Rattle.content.specs.Marks.{agree};

use content::marks::{is_lower, is_space, is_upper, marks};
use content::relations::{ALPHABETIC, ALPHABETIC_LOWER};

pub fn in_alphabet(marks: &[u64; 16], word: u32, b: u8) -> bool
    requires { agree marks.now ≡ true }
    ensures { result ≡ in_alphabet word b }
{
    if word == ALPHABETIC {
        return is_upper(marks, b) | is_lower(marks, b) | is_space(marks, b);
    }
    if word == ALPHABETIC_LOWER {
        return is_lower(marks, b) | is_space(marks, b);
    }
    is_upper(marks, b) | is_space(marks, b)
}

// Whether the first 16 bytes are of the alphabet. The loop has no exit: marks are joined, and one test follows.
fn block_in_alphabet(marks: &[u64; 16], word: u32, bytes: &[u8]) -> bool
    requires marks_value { agree marks.now ≡ true }
    requires in_bounds { 16 ≤ length bytes.now }
    ensures { result ≡ all (in_alphabet word) (take 16 bytes.now) }
{
    let mut fine = true;
    for b in &bytes[..16] {
        fine = fine & in_alphabet(marks, word, *b);
    }
    fine
}

// How many bytes the blocks have that come before the first one with another byte.
fn alphabet_blocks(marks: &[u64; 16], word: u32, bytes: &[u8]) -> usize
    requires { agree marks.now ≡ true }
    ensures { (result ≤ length bytes.now) × (all (in_alphabet word) (take result bytes.now) ≡ true) }
{
    let mut i: usize = 0;
    // By place: where the block begins is the answer.
    while 16 <= bytes.len() - i {
        if !block_in_alphabet(marks, word, &bytes[i..]) {
            return i;
        }
        i += 16;
    }
    i
}

pub fn all_in_alphabet(word: u32, bytes: &[u8]) -> bool
    ensures { result ≡ all (in_alphabet word) bytes.now }
{
    let marks = marks();
    let first = alphabet_blocks(&marks, word, bytes);
    for b in &bytes[first..] {
        if !in_alphabet(&marks, word, *b) {
            return false;
        }
    }
    true
}
