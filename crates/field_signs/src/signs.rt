// Signs, and whether a field has a minus.
ghost use Rattle.std.specs.Prelude.{◌≡◌, ◌≤◌, length};
ghost use Rattle.content.specs.Content.{is_sign, is_signed_digit, is_minus};

use content::Row;
use content::rows::is_packed;

pub fn is_sign(b: u8) -> bool
    ensures { result ≡ is_sign b }
{
    (b == 0x2b) | (b == 0x2d)
}

pub fn is_signed_digit(b: u8) -> bool
    ensures { result ≡ is_signed_digit b }
{
    ((b / 16 == 3) | (b / 16 == 4)) & (b % 16 <= 9)
}

pub fn is_minus(row: Row, bytes: &[u8]) -> bool
    requires { 1 ≤ length bytes.now }
    ensures { result ≡ is_minus row.kind bytes.now }
{
    let kind = row.kind;
    let last = bytes.len() - 1;
    if kind == Row::SIGNED {
        return bytes[last] / 16 == 4;
    }
    if kind == Row::SIGN_LEADING {
        return bytes[0] == 0x2d;
    }
    if kind == Row::SIGN_TRAILING {
        return bytes[last] == 0x2d;
    }
    if is_packed(row) {
        return bytes[last] % 16 == 4;
    }
    false
}
