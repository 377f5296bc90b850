// Packed fields: digits and the sign in half-bytes.
ghost use Rattle.std.specs.Prelude.{◌≡◌, ◌&&◌, ◌≤◌, length};
ghost use Rattle.content.specs.Packed.{left_half, two_digits, digit_and_sign, leads, packed_right};
ghost use Rattle.content.specs.Content.{all, first_byte, last_byte, but_last};

use content::Row;

pub fn left_half(b: u8) -> u8
    ensures { result ≡ left_half b }
{
    b / 16 % 16
}

pub fn two_digits(b: u8) -> bool
    ensures { result ≡ two_digits b }
{
    (b / 16 % 16 <= 9) & (b % 16 <= 9)
}

pub fn digit_and_sign(row: Row, b: u8) -> bool
    ensures { result ≡ digit_and_sign row.kind b }
{
    (b / 16 % 16 <= 9) & ((b % 16 == 3) | ((b % 16 == 4) & (row.kind == Row::PACKED)))
}

// Whether the first byte may lead the digits.
pub fn may_lead(row: Row, b: u8) -> bool
    ensures { result ≡ leads row.digits b }
{
    !(row.digits % 2 == 0) | (b / 16 % 16 == 0)
}

fn all_two_digits(bytes: &[u8]) -> bool
    ensures { result ≡ all two_digits bytes.now }
{
    let mut fine = true;
    for b in bytes {
        fine = fine & two_digits(*b);
    }
    fine
}

pub fn packed_valid(row: Row, bytes: &[u8]) -> bool
    requires { 1 ≤ length bytes.now }
    ensures { result ≡ (all two_digits (but_last bytes.now) && digit_and_sign row.kind (last_byte bytes.now) && leads row.digits (first_byte bytes.now)) }
{
    let last = bytes.len() - 1;
    let pairs = all_two_digits(&bytes[..last]);
    pairs & digit_and_sign(row, bytes[last]) & may_lead(row, bytes[0])
}

pub fn packed_right(row: Row, first: bool, last: bool, b: u8) -> bool
    ensures { result ≡ packed_right row.kind row.digits first last b }
{
    (!last | digit_and_sign(row, b)) & (last | two_digits(b)) & (!first | may_lead(row, b))
}
