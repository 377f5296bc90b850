// A mark for each of the 256 byte values: whether it is a digit, an upper case letter, a lower case letter or a space.
ghost use Rattle.std.specs.Prelude.{◌≡◌, true};
ghost use Rattle.content.specs.Content.{is_digit};
ghost use Rattle.content.specs.Letters.{is_upper, is_lower, is_space};
ghost use Rattle.content.specs.Marks.{agree, Marked};

// A number is sixteen marks of four bits each: a byte's left half names the number, its right half the mark in it, from the
// right. A mark is 1 for a digit, 2 for an upper case letter, 4 for a lower case one, 8 for the space, else 0.
const MARKS: [u64; 16] = [
    0x0000000000000000, // 00 to 0f
    0x0000000000000000, // 10 to 1f
    0x0000000000000008, // 20 to 2f: the space
    0x0000001111111111, // 30 to 3f: digits
    0x2222222222222220, // 40 to 4f: upper case
    0x0000022222222222, // 50 to 5f: upper case
    0x4444444444444440, // 60 to 6f: lower case
    0x0000044444444444, // 70 to 7f: lower case
    0x0000000000000000, // 80 to 8f
    0x0000000000000000, // 90 to 9f
    0x0000000000000000, // a0 to af
    0x0000000000000000, // b0 to bf
    0x0000000000000000, // c0 to cf
    0x0000000000000000, // d0 to df
    0x0000000000000000, // e0 to ef
    0x0000000000000000, // f0 to ff
];

// The table. Whoever asks of many bytes takes it once: a constant array is laid on the stack wherever it is named.
pub fn marks() -> [u64; 16]
    ensures { agree result ≡ true }
{
    MARKS
}

// The byte's mark, and above it those of the bytes after it.
fn mark_of(marks: &[u64; 16], b: u8) -> u64
    requires { agree marks.now ≡ true }
    ensures { Marked b result }
{
    let row = (b / 16) as usize;
    marks[row] >> (b % 16 * 4)
}

pub fn is_digit(marks: &[u64; 16], b: u8) -> bool
    requires { agree marks.now ≡ true }
    ensures { result ≡ is_digit b }
{
    mark_of(marks, b) & 1 == 1
}

pub fn is_upper(marks: &[u64; 16], b: u8) -> bool
    requires { agree marks.now ≡ true }
    ensures { result ≡ is_upper b }
{
    mark_of(marks, b) >> 1 & 1 == 1
}

pub fn is_lower(marks: &[u64; 16], b: u8) -> bool
    requires { agree marks.now ≡ true }
    ensures { result ≡ is_lower b }
{
    mark_of(marks, b) >> 2 & 1 == 1
}

pub fn is_space(marks: &[u64; 16], b: u8) -> bool
    requires { agree marks.now ≡ true }
    ensures { result ≡ is_space b }
{
    mark_of(marks, b) >> 3 & 1 == 1
}
