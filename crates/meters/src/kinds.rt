// One item mended.
ghost use Rattle.std.specs.Prelude.{◌≡◌, ◌≤◌, length};
ghost use Rattle.content.specs.Content.{all};
ghost use Rattle.content.specs.Letters.{is_space};
ghost use Rattle.mending.specs.Mend.{filled, leading, sign_of, attempt, mended_item};

use content::Row;
use content::marks::{is_space, marks};
use content::rows::is_zoned;
use fields::held::valid_content;
use item_parts::parts::copy_bytes;

fn all_spaces(bytes: &[u8]) -> bool
    ensures { result ≡ all is_space bytes.now }
{
    let marks = marks();
    bytes.iter().all(|b| is_space(&marks, *b))
}

// Leading spaces become zeros.
fn fill(bytes: &mut [u8])
    ensures { bytes.new ≡ filled bytes.old }
{
    let marks = marks();
    for b in bytes.iter_mut() {
        if !is_space(&marks, *b) {
            return;
        }
        *b = 0x30;
    }
}

// The same where a digit may follow them.
fn lead(bytes: &mut [u8])
    ensures { bytes.new ≡ leading bytes.old }
{
    let blank = all_spaces(bytes);
    if !blank {
        fill(bytes);
    }
}

fn sign_of(b: u8) -> u8
    ensures { result ≡ sign_of b }
{
    let marks = marks();
    if is_space(&marks, b) {
        return 0x2b;
    }
    b
}

// Digits and sign of an item of kinds 3 to 6.
fn mend_digits(row: Row, bytes: &mut [u8])
    requires { 1 ≤ length bytes.old }
    ensures { bytes.new ≡ attempt row.kind bytes.old }
{
    let kind = row.kind;
    let last = bytes.len() - 1;
    if kind == Row::SIGN_LEADING {
        bytes[0] = sign_of(bytes[0]);
        lead(&mut bytes[1..]);
        return;
    }
    if kind == Row::SIGN_TRAILING {
        bytes[last] = sign_of(bytes[last]);
        lead(&mut bytes[..last]);
        return;
    }
    lead(bytes);
}

// What an item becomes, into a buffer of its length.
pub fn mended_into(row: Row, bytes: &[u8], out: &mut [u8])
    requires { (1 ≤ length bytes.now) × (length out.old ≡ length bytes.now) }
    ensures { out.new ≡ mended_item row.kind row.digits bytes.now }
{
    copy_bytes(bytes, out);
    if !is_zoned(row) {
        return;
    }
    mend_digits(row, out);
    let valid = valid_content(row, out);
    if !valid {
        copy_bytes(bytes, out);
    }
}
