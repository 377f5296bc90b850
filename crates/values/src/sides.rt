// The two sides of a relation: whether one is faulty, and how they compare.
ghost use Rattle.std.specs.Prelude.{◌≡◌, true, false, cond, not, ◌&&◌, ◌≤◌, length};
ghost use Rattle.tables.specs.Rows.{is_group, is_numeric};
ghost use Rattle.content.specs.Content.{digit_bytes};
ghost use Rattle.content.specs.WrongByte.{nowhere, valid_content};
ghost use Rattle.values.specs.Comparison.{side, comparison, wrong_byte, fault};
ghost use Rattle.values.specs.Truth.{Fit, Near, or_stop};

use characters::filled::compare_characters;
use content::Row;
use field_digits::digits::digit_bytes;
use fields::held::{first_wrong, valid_content};
use std::cmp::Ordering;
use tables::rows::{is_group, is_numeric};
use tables::{Outcome, Stop};

// Whether a relation with another side stops at this one. Beside a group it is not looked at.
pub fn is_faulty(item: bool, row: Row, bytes: &[u8], other: Row) -> bool
    requires { 1 ≤ length bytes.now }
    ensures { result ≡ not (nowhere (fault (side item row bytes.now) other)) }
{
    if item & !is_group(other) {
        return !valid_content(row, bytes);
    }
    false
}

// The stop at the first wrong byte of an item that has one, whatever would come else.
pub fn stop_at(row: Row, bytes: &[u8]) -> Outcome
    requires { Near row bytes.now × (valid_content row.kind row.digits bytes.now ≡ false) }
    ensures { (rest : Outcome) → result ≡ or_stop row.kind (wrong_byte (side true row bytes.now)) rest }
{
    let byte = row.offset as usize + first_wrong(row, bytes);
    if row.kind == Row::ALPHABETIC {
        return Outcome::Stopped(Stop::Letters(byte));
    }
    Outcome::Stopped(Stop::Digits(byte))
}

fn gives_digits(item: bool, row: Row, other: Row) -> bool
    ensures { result ≡ (is_numeric row && not (item && is_group other)) }
{
    is_numeric(row) & !(item & is_group(other))
}

// The bytes of a side that are compared: those of its digits, or all.
fn compared_part(digits: bool, row: Row, bytes: &[u8]) -> &[u8]
    requires { 1 ≤ length bytes.now }
    ensures { result.now ≡ cond digits (digit_bytes row.kind bytes.now) bytes.now }
{
    if digits {
        return digit_bytes(row, bytes);
    }
    bytes
}

// Other pairs than two numeric sides: by characters.
pub fn compare_sides(
    item1: bool,
    row1: Row,
    bytes1: &[u8],
    item2: bool,
    row2: Row,
    bytes2: &[u8],
) -> Ordering
    requires fit { Fit (side item1 row1 bytes1.now) × Fit (side item2 row2 bytes2.now) }
    requires row2_value { (is_numeric row1 && is_numeric row2) ≡ false }
    ensures { result ≡ comparison (side item1 row1 bytes1.now) (side item2 row2 bytes2.now) }
{
    let digits1 = gives_digits(item1, row1, row2);
    let digits2 = gives_digits(item2, row2, row1);
    compare_characters(
        compared_part(digits1, row1, bytes1),
        digits1 & (row1.kind == Row::SIGNED),
        compared_part(digits2, row2, bytes2),
        digits2 & (row2.kind == Row::SIGNED),
    )
}
