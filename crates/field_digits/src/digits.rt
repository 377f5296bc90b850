// The digits of a field.
ghost use Rattle.std.specs.Prelude.{◌≡◌, true, ◌≤◌, length};
ghost use Rattle.content.specs.Content.{all, is_digit, digit_bytes};
ghost use Rattle.content.specs.Marks.{agree};

use content::Row;
use content::marks::{is_digit, marks};

fn few_digits(marks: &[u64; 16], bytes: &[u8]) -> bool
    requires { agree marks.now ≡ true }
    ensures { result ≡ all is_digit bytes.now }
{
    for b in bytes {
        if !is_digit(marks, *b) {
            return false;
        }
    }
    true
}

// The loop has no exit: marks are joined, and one test follows.
fn many_digits(marks: &[u64; 16], bytes: &[u8]) -> bool
    requires { agree marks.now ≡ true }
    ensures { result ≡ all is_digit bytes.now }
{
    let mut fine = true;
    for b in bytes {
        fine = fine & is_digit(marks, *b);
    }
    fine
}

// Most items are short, and there the loop with an exit costs less.
pub fn all_digits(bytes: &[u8]) -> bool
    ensures { result ≡ all is_digit bytes.now }
{
    let marks = marks();
    if bytes.len() < 16 {
        return few_digits(&marks, bytes);
    }
    many_digits(&marks, bytes)
}

// The bytes that hold digits: after a leading sign they start at 1, before a trailing one they end early.
pub fn digit_bytes(row: Row, bytes: &[u8]) -> &[u8]
    requires { 1 ≤ length bytes.now }
    ensures { result.now ≡ digit_bytes row.kind bytes.now }
{
    let kind = row.kind;
    if kind == Row::SIGN_LEADING {
        return &bytes[1..];
    }
    if kind == Row::SIGN_TRAILING {
        let last = bytes.len() - 1;
        return &bytes[..last];
    }
    bytes
}
