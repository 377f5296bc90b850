// What a relation of two sides comes to.
ghost use Rattle.std.specs.Prelude.{◌≡◌, false, ◌&&◌, ◌||◌, eqb};
ghost use Rattle.content.specs.Kinds.{kind_alphanumeric};
ghost use Rattle.tables.specs.Rows.{is_group, is_numeric};
ghost use Rattle.values.specs.Comparison.{side};
ghost use Rattle.values.specs.Truth.{truth, turned, relation_outcome, Fit, Numeral};

use byte_words::words::short_word;
use characters::filled::compare_characters;
use compare::orders::{order_of, relation_holds};
use content::Row;
use digit_words::rows::fits_word;
use eight_digits::digits::all_digits;
use numbers::reading::read_number;
use scaled::compare_scaled;
use tables::Outcome;
use tables::rows::{is_group, is_numeric};
use values::sides::{compare_sides, is_faulty, stop_at};

// True or false, exchanged where NOT belongs to the word.
pub fn truth_value(negated: bool, holds: bool) -> Outcome
    ensures { result ≡ truth (turned negated holds) }
{
    if negated == holds {
        return Outcome::False;
    }
    Outcome::True
}

// A relation of two numeric sides. The digits of each are gone through once, for their check and for their value.
fn value_outcome(
    item1: bool,
    row1: Row,
    bytes1: &[u8],
    item2: bool,
    row2: Row,
    bytes2: &[u8],
    word: u32,
    negated: bool,
) -> Outcome
    requires { Numeral row1 bytes1.now × Numeral row2 bytes2.now }
    ensures { result ≡ relation_outcome word negated (side item1 row1 bytes1.now) (side item2 row2 bytes2.now) }
{
    let left = read_number(row1, bytes1);
    let right = read_number(row2, bytes2);
    let left_stops = item1 & !left.valid;
    if left_stops {
        return stop_at(row1, bytes1);
    }
    let right_stops = item2 & !right.valid;
    if right_stops {
        return stop_at(row2, bytes2);
    }
    let order = compare_scaled(
        left.minus,
        left.digits,
        row1.scale,
        right.minus,
        right.digits,
        row2.scale,
    );
    truth_value(negated, relation_holds(word, order))
}

// Other pairs than two numeric sides: each side is looked at before they are compared.
fn checked_outcome(
    item1: bool,
    row1: Row,
    left: &[u8],
    item2: bool,
    row2: Row,
    right: &[u8],
    word: u32,
    negated: bool,
) -> Outcome
    requires fit { Fit (side item1 row1 left.now) × Fit (side item2 row2 right.now) }
    requires row2_value { (is_numeric row1 && is_numeric row2) ≡ false }
    ensures { result ≡ relation_outcome word negated (side item1 row1 left.now) (side item2 row2 right.now) }
{
    if is_faulty(item1, row1, left, row2) {
        return stop_at(row1, left);
    }
    if is_faulty(item2, row2, right, row1) {
        return stop_at(row2, right);
    }
    let order = compare_sides(item1, row1, left, item2, row2, right);
    truth_value(negated, relation_holds(word, order))
}

// A group or a text, whose bytes may be any.
fn is_text(row: Row) -> bool
    ensures { result ≡ (is_group row || eqb row.kind kind_alphanumeric) }
{
    is_group(row) | (row.kind == Row::ALPHANUMERIC)
}

// A relation of two sides. What is asked most often comes first: fields of digits at one scale, whose words are ordered as their numbers are, and texts,
// of which nothing has to be looked at.
pub fn sides_outcome(
    item1: bool,
    row1: Row,
    left: &[u8],
    item2: bool,
    row2: Row,
    right: &[u8],
    word: u32,
    negated: bool,
) -> Outcome
    requires { Fit (side item1 row1 left.now) × Fit (side item2 row2 right.now) }
    ensures { result ≡ relation_outcome word negated (side item1 row1 left.now) (side item2 row2 right.now) }
{
    if fits_word(row1) & fits_word(row2) & (row1.scale == row2.scale) {
        let a = short_word(left);
        let b = short_word(right);
        if all_digits(a) & all_digits(b) {
            return truth_value(negated, relation_holds(word, order_of(a, b)));
        }
    }
    if is_numeric(row1) & is_numeric(row2) {
        return value_outcome(item1, row1, left, item2, row2, right, word, negated);
    }
    if is_text(row1) & is_text(row2) {
        let order = compare_characters(left, false, right, false);
        return truth_value(negated, relation_holds(word, order));
    }
    checked_outcome(item1, row1, left, item2, row2, right, word, negated)
}
