// What a numeric field holds, in one pass over its bytes.
ghost use Rattle.std.specs.Prelude.{◌≡◌, true, cond, ℕ, ◌≤◌, eqb, length};
ghost use Rattle.content.specs.Content.{all, is_digit, digit_bytes, but_first, but_last};
ghost use Rattle.content.specs.Kinds.{kind_unsigned, kind_sign_leading};
ghost use Rattle.content.specs.Packed.{is_packed};
ghost use Rattle.compare.specs.Compared.{number_of, pairs_of};
ghost use Rattle.compare.specs.Fields.{NumberField};

use byte_words::words::{field_word, short_word};
use compare::Number;
use content::Row;
use content::rows::is_packed;
use eight_digits::digits::{all_digits, digits_value};
use field_signs::signs::{is_minus, is_sign, is_signed_digit};
use packed::halves::{digit_and_sign, left_half, may_lead, two_digits};

// Whether there are digits alone, eight at once; those that are more than eights come first.
pub fn only_digits(bytes: &[u8]) -> bool
    ensures { result ≡ all is_digit bytes.now }
{
    let head = bytes.len() % 8;
    let mut fine = all_digits(short_word(&bytes[..head]));
    let mut i = head;
    // By place: a word is read by its end in the field.
    while i < bytes.len() {
        fine = fine & all_digits(field_word(bytes, i + 8, 8));
        i += 8;
    }
    fine
}

// A field of digits only, as kind 3 is, in the same way. A digit is the right half of its byte, valid or not, so that each field's number fits.
fn read_digits(bytes: &[u8]) -> Number
    requires { length bytes.now ≤ 18 }
    ensures { result ≡ number_of 3 0 bytes.now }
{
    let head = bytes.len() % 8;
    let first = short_word(&bytes[..head]);
    let mut fine = all_digits(first);
    let mut n = digits_value(first);
    let mut i = head;
    // By place, as above.
    while i < bytes.len() {
        let word = field_word(bytes, i + 8, 8);
        fine = fine & all_digits(word);
        n = n * 100000000 + digits_value(word);
        i += 8;
    }
    Number {
        valid: fine,
        minus: false,
        digits: n,
    }
}

// Bytes of two digits each. A half is taken as it is, a digit or not, so that nine bytes' number fits.
fn read_pairs(bytes: &[u8]) -> Number
    requires { length bytes.now ≤ 9 }
    ensures { result ≡ pairs_of bytes.now }
{
    let mut fine = true;
    let mut n: u64 = 0;
    for b in bytes {
        fine = fine & two_digits(*b);
        n = n * 100 + left_half(*b) as u64 * 10 + (*b % 16) as u64;
    }
    Number {
        valid: fine,
        minus: false,
        digits: n,
    }
}

// A packed field: pairs of digits, and a last byte of a digit and the sign.
fn read_packed(row: Row, bytes: &[u8]) -> Number
    requires kind_value { is_packed row.kind ≡ true }
    requires in_bounds { (1 ≤ length bytes.now) × (length bytes.now ≤ 10) }
    ensures { result ≡ number_of row.kind row.digits bytes.now }
{
    let last = bytes.len() - 1;
    let pairs = read_pairs(&bytes[..last]);
    let b = bytes[last];
    Number {
        valid: pairs.valid & digit_and_sign(row, b) & may_lead(row, bytes[0]),
        minus: is_minus(row, bytes),
        digits: pairs.digits * 10 + left_half(b) as u64,
    }
}

// The bytes of a field of kinds 3 to 6 that hold a digit and no sign.
fn plain_digits(kind: u32, bytes: &[u8]) -> &[u8]
    requires { 1 ≤ length bytes.now }
    ensures { result.now ≡ cond (eqb kind kind_unsigned) bytes.now (cond (eqb kind kind_sign_leading) (but_first bytes.now) (but_last bytes.now)) }
{
    if kind == Row::UNSIGNED {
        return bytes;
    }
    if kind == Row::SIGN_LEADING {
        return &bytes[1..];
    }
    let last = bytes.len() - 1;
    &bytes[..last]
}

// A field of kinds 3 to 6. How many digits it has, its bytes tell. Its digits are read in one place, which the compiler then copies in.
fn read_display(row: Row, bytes: &[u8]) -> Number
    requires le_kind { (3 ≤ row.kind) × (row.kind ≤ 6) }
    requires in_bounds { (1 ≤ length bytes.now) × (length (digit_bytes row.kind bytes.now) ≤ 18) }
    ensures { (digits : ℕ) → result ≡ number_of row.kind digits bytes.now }
{
    let kind = row.kind;
    let rest = read_digits(plain_digits(kind, bytes));
    if kind == Row::UNSIGNED {
        return rest;
    }
    if kind == Row::SIGN_LEADING {
        return Number {
            valid: is_sign(bytes[0]) & rest.valid,
            minus: is_minus(row, bytes),
            digits: rest.digits,
        };
    }
    let last = bytes.len() - 1;
    let b = bytes[last];
    if kind == Row::SIGNED {
        return Number {
            valid: rest.valid & is_signed_digit(b),
            minus: is_minus(row, bytes),
            digits: rest.digits * 10 + (b % 16) as u64,
        };
    }
    Number {
        valid: rest.valid & is_sign(b),
        minus: is_minus(row, bytes),
        digits: rest.digits,
    }
}

// All that a numeric field holds, in one pass over its bytes.
pub fn read_number(row: Row, bytes: &[u8]) -> Number
    requires { NumberField row.kind bytes.now }
    ensures { result ≡ number_of row.kind row.digits bytes.now }
{
    if is_packed(row) {
        return read_packed(row, bytes);
    }
    read_display(row, bytes)
}
