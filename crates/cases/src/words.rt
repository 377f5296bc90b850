// Words and their numbers: a to z are items 0 to 25, A to Z literals 0 to 25, s0 to s9 a switch that is on, o0 to o9 the
// retired word for one that is off; the other words of a condition are those of document 01.
ghost use Rattle.std.specs.Prelude.{◌≡◌, ◌+◌, ◌≤◌, ◌%◌, length, drop};
ghost use Rattle.cases.specs.Words.{first_of, before, digit_of, appended, digits_from, of_one, of_two, of_more, of_sixteen, of_word, token_of};

use tables::tokens::{FIRST_LITERAL, FIRST_OFF, FIRST_ON};
use tables::words::{
    ALPHABETIC, ALPHABETIC_LOWER, ALPHABETIC_UPPER, AND, CLOSE, EQUAL, GREATER, GREATER_OR_EQUAL,
    LESS, LESS_OR_EQUAL, NEGATIVE, NOT, NUMERIC, OPEN, OR, POSITIVE, ZERO,
};

// A number that is no token.
const NONE: u32 = 4294967295;

fn of_one(byte: u8) -> u32
    ensures { result ≡ of_one byte }
{
    match byte {
        b'(' => OPEN,
        b')' => CLOSE,
        b'>' => GREATER,
        b'<' => LESS,
        b'=' => EQUAL,
        b'a'..=b'z' => u32::from(byte - b'a'),
        b'A'..=b'Z' => FIRST_LITERAL + u32::from(byte - b'A'),
        _ => NONE,
    }
}

fn of_two(first: u8, second: u8) -> u32
    ensures { result ≡ of_two first second }
{
    match first {
        b's' => FIRST_ON + u32::from(second % 16),
        b'o' => FIRST_OFF + u32::from(second % 16),
        b'O' => OR,
        b'>' => GREATER_OR_EQUAL,
        b'<' => LESS_OR_EQUAL,
        _ => NONE,
    }
}

// NOT, AND, ZERO, NUMERIC, POSITIVE, NEGATIVE, ALPHABETIC: by length and first letter.
fn of_more(length: usize, first: u8) -> u32
    ensures { result ≡ of_more length first }
{
    match length {
        3 => {
            if first == b'N' {
                return NOT;
            }
            AND
        }
        4 => ZERO,
        7 => NUMERIC,
        8 => {
            if first == b'P' {
                return POSITIVE;
            }
            NEGATIVE
        }
        10 => ALPHABETIC,
        _ => NONE,
    }
}

// ALPHABETIC-LOWER, ALPHABETIC-UPPER: by the letter after the hyphen.
fn of_sixteen(letter: u8) -> u32
    ensures { result ≡ of_sixteen letter }
{
    if letter == b'L' {
        return ALPHABETIC_LOWER;
    }
    ALPHABETIC_UPPER
}

fn token_of_word(word: &[u8]) -> u32
    ensures { result ≡ of_word word.now }
{
    match word.len() {
        0 => NONE,
        1 => of_one(word[0]),
        2 => of_two(word[0], word[1]),
        16 => of_sixteen(word[11]),
        _ => of_more(word.len(), word[0]),
    }
}

// Its token; a decimal number is itself.
pub(crate) fn token_of(word: &[u8]) -> u32
    ensures { result ≡ token_of word.now }
{
    match first(word) {
        b'0'..=b'9' => digits(word, 10),
        _ => token_of_word(word),
    }
}

// 0 where there is none.
pub(crate) fn first(text: &[u8]) -> u8
    ensures { result ≡ first_of text.now }
{
    text.first().copied().unwrap_or(0)
}

// Where a byte stands next, from a place on, or the end.
pub(crate) fn find(text: &[u8], start: usize, byte: u8) -> usize
    requires { start ≤ length text.now }
    ensures lower_bound { (start ≤ result) × (result ≤ length text.now) }
    ensures value { result ≡ start + length (before byte (drop start text.now)) }
{
    for at in start..text.len() {
        if text[at] == byte {
            return at;
        }
    }
    text.len()
}

// 16 for a byte that is no digit.
fn digit(byte: u8) -> u32
    ensures { result ≡ digit_of byte }
{
    match byte {
        b'0'..=b'9' => u32::from(byte - b'0'),
        b'a'..=b'f' => u32::from(byte - b'a') + 10,
        _ => 16,
    }
}

fn low_word(x: u64) -> u32
    ensures { result ≡ x % 4294967296 }
{
    (x % 4294967296) as u32
}

// One more digit; what is none is passed over.
fn append(value: u32, digit: u32, radix: u32) -> u32
    ensures { result ≡ appended radix value digit }
{
    if digit >= radix {
        return value;
    }
    if radix == 16 {
        return low_word(value as u64 * 16 + digit as u64);
    }
    low_word(value as u64 * 10 + digit as u64)
}

// The number that the digits of a text spell, radix 10 or 16.
pub(crate) fn digits(text: &[u8], radix: u32) -> u32
    ensures { result ≡ digits_from radix 0 text.now }
{
    let mut value: u32 = 0;
    for byte in text {
        value = append(value, digit(*byte), radix);
    }
    value
}
