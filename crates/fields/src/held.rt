// Valid content, and where a field is wrong.
ghost use Rattle.std.specs.Prelude.{◌≡◌, true, false, ◌≤◌, length};
ghost use Rattle.content.specs.Marks.{agree};
ghost use Rattle.content.specs.WrongByte.{At, right_byte, first_wrong, valid_content};

use alphabets::{all_in_alphabet, in_alphabet};
use content::Row;
use content::marks::{is_digit, marks};
use content::relations::ALPHABETIC;
use content::rows::{is_packed, is_zoned};
use field_digits::digits::all_digits;
use field_signs::signs::{is_sign, is_signed_digit};
use packed::halves::{packed_right, packed_valid};

pub fn valid_content(row: Row, bytes: &[u8]) -> bool
    requires { 1 ≤ length bytes.now }
    ensures { result ≡ valid_content row.kind row.digits bytes.now }
{
    let kind = row.kind;
    let last = bytes.len() - 1;
    if kind == Row::UNSIGNED {
        return all_digits(bytes);
    }
    if kind == Row::SIGNED {
        return all_digits(&bytes[..last]) & is_signed_digit(bytes[last]);
    }
    if kind == Row::SIGN_LEADING {
        return is_sign(bytes[0]) & all_digits(&bytes[1..]);
    }
    if kind == Row::SIGN_TRAILING {
        return all_digits(&bytes[..last]) & is_sign(bytes[last]);
    }
    if kind == Row::ALPHABETIC {
        return all_in_alphabet(ALPHABETIC, bytes);
    }
    if is_packed(row) {
        return packed_valid(row, bytes);
    }
    true
}

// Whether a byte may stand in a field, as its first byte or not and as its last or not.
fn is_right(marks: &[u64; 16], row: Row, first: bool, last: bool, b: u8) -> bool
    requires { agree marks.now ≡ true }
    ensures { result ≡ right_byte row.kind row.digits first last b }
{
    let kind = row.kind;
    if kind == Row::ALPHABETIC {
        return in_alphabet(marks, ALPHABETIC, b);
    }
    if (kind == Row::SIGNED) & last {
        return is_signed_digit(b);
    }
    if ((kind == Row::SIGN_LEADING) & first) | ((kind == Row::SIGN_TRAILING) & last) {
        return is_sign(b);
    }
    if is_zoned(row) {
        return is_digit(marks, b);
    }
    if is_packed(row) {
        return packed_right(row, first, last, b);
    }
    true
}

// Where the first wrong byte stands. It is looked for only after a faster test of the whole field has failed.
pub fn first_wrong(row: Row, bytes: &[u8]) -> usize
    requires { valid_content row.kind row.digits bytes.now ≡ false }
    ensures { first_wrong row.kind row.digits bytes.now ≡ At result }
{
    let marks = marks();
    let mut at: usize = 0;
    // There is a wrong byte, so that no end is looked for.
    while is_right(&marks, row, at == 0, at + 1 == bytes.len(), bytes[at]) {
        at += 1;
    }
    at
}
