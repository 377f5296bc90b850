// A field beside a literal.
ghost use Rattle.std.specs.Prelude.{◌≡◌, true, false, ◌<◌, length, get_or};
ghost use Rattle.values.specs.Comparison.{side, comparison};
ghost use Rattle.values.specs.Truth.{Fit};
ghost use Rattle.literal_sides.specs.Ranges.{Held};

use compare::Number;
use content::Row;
use fields::held::valid_content;
use numbers::reading::read_number;
use scaled::compare_scaled;
use std::cmp::Ordering;
use tables::rows::is_numeric;
use values::sides::compare_sides;

// A number of the name table.
pub fn number_at(names: &[u32], at: usize) -> usize
    requires { at < length names.now }
    ensures { result ≡ get_or names.now at 0 }
{
    names[at] as usize
}

// What a field holds, for all its comparisons.
pub fn held(row: Row, bytes: &[u8]) -> Number
    requires { Fit (side true row bytes.now) }
    ensures { Held row bytes.now result }
{
    if is_numeric(row) {
        return read_number(row, bytes);
    }
    Number {
        valid: valid_content(row, bytes),
        minus: false,
        digits: 0,
    }
}

// 01's comparison of a side with a literal: by value where both are numeric, else by characters.
pub fn compare_literal(
    item: bool,
    row: Row,
    bytes: &[u8],
    number: Number,
    literal: Row,
    value: &[u8],
) -> Ordering
    requires fit { Fit (side item row bytes.now) × Fit (side false literal value.now) }
    requires held { Held row bytes.now number }
    ensures { result ≡ comparison (side item row bytes.now) (side false literal value.now) }
{
    if is_numeric(row) & is_numeric(literal) {
        let right = read_number(literal, value);
        return compare_scaled(
            number.minus,
            number.digits,
            row.scale,
            right.minus,
            right.digits,
            literal.scale,
        );
    }
    compare_sides(item, row, bytes, false, literal, value)
}
