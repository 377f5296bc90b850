// Numeric literals: a word as the row of a literal.
ghost use Rattle.std.specs.Prelude.{◌≡◌, true, cond, ℕ, suc, ◌-◌, ◌≤◌, ltb, length, drop};
ghost use Rattle.content.specs.Content.{all, is_digit, is_sign, first_byte};
ghost use Rattle.spelling.specs.Literals.{literal_digits, point_place, without_point};
ghost use Rattle.literal_words.specs.Found.{number_found, row_by};
ghost use Rattle.content.specs.WrongByte.{valid_content};
ghost use Rattle.content.specs.Kinds.{kind_unsigned, kind_sign_leading};

use content::Row;
use field_digits::digits::all_digits;
use field_signs::signs::is_sign;
use literal_bytes::points::point_place;
use row_rules::sound::row_sound;

// Whether all bytes after place `at` are digits.
fn digits_after(word: &[u8], at: usize) -> bool
    requires { at ≤ length word.now }
    ensures { result ≡ all is_digit (drop (suc at) word.now) }
{
    if at < word.len() {
        return all_digits(&word[at + 1..]);
    }
    true
}

fn kind_of(signed: bool) -> u32
    ensures { result ≡ cond signed kind_sign_leading kind_unsigned }
{
    if signed {
        return Row::SIGN_LEADING;
    }
    Row::UNSIGNED
}

fn start_of(signed: bool) -> usize
    ensures { result ≡ cond signed 1 0 }
{
    if signed {
        return 1;
    }
    0
}

fn size_of(n: u32, p: u32) -> u32
    ensures { result ≡ cond (ltb p n) (n - 1) n }
{
    if p < n {
        return n - 1;
    }
    n
}

fn scale_of(n: u32, p: u32) -> u32
    ensures { result ≡ n - suc p }
{
    if p < n {
        return n - p - 1;
    }
    0
}

fn digits_of(size: u32, signed: bool) -> u32
    ensures { result ≡ literal_digits (cond signed kind_sign_leading kind_unsigned) size }
{
    if !signed {
        return size;
    }
    if size == 0 {
        return 0;
    }
    size - 1
}

fn row_of_number(n: usize, p: usize, signed: bool) -> Row
    requires { (p ≤ n) × (n ≤ 20) }
    ensures { result ≡ row_by n p signed }
{
    let size = size_of(n as u32, p as u32);
    let scale = scale_of(n as u32, p as u32);
    Row {
        kind: kind_of(signed),
        offset: 0,
        size: size,
        scale: scale,
        digits: digits_of(size, signed),
    }
}

// Whether the bytes without the point at `p` are digits after a sign or none.
fn number_content(word: &[u8], p: usize, signed: bool) -> bool
    requires { (p ≡ point_place word.now) × (signed ≡ is_sign (first_byte word.now)) }
    ensures { (digits : ℕ) → result ≡ valid_content (cond signed kind_sign_leading kind_unsigned) digits (without_point word.now) }
{
    let from = start_of(signed);
    all_digits(&word[from..p]) & digits_after(word, p)
}

// The row of the numeric literal that a word writes, its bytes at offset 0, if it writes one.
pub fn read_number(word: &[u8]) -> Option<Row>
    ensures { result ≡ number_found word.now }
{
    let n = word.len();
    if n == 0 {
        return None;
    }
    if 20 < n {
        return None;
    }
    if word[n - 1] == b'.' {
        return None;
    }
    let signed = is_sign(word[0]);
    let p = point_place(word);
    let row = row_of_number(n, p, signed);
    if !row_sound(row) {
        return None;
    }
    if !number_content(word, p, signed) {
        return None;
    }
    Some(row)
}
