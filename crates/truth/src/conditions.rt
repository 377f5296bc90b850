// What one simple condition comes to on a record and a switch byte.
ghost use Rattle.std.specs.Prelude.{◌≡◌, true};
ghost use Rattle.tables.specs.Rows.{is_numeric};
ghost use Rattle.tables.specs.Operands.{lend, lend_names, row_of};
ghost use Rattle.values.specs.Comparison.{side_of};
ghost use Rattle.values.specs.Truth.{relation_outcome, class_outcome, sign_outcome, outcome, Readable, Sided};

use compare::classes::class_holds;
use compare::orders::sign_holds;
use compare::switches::switch_on;
use names::ranges::name_outcome;
use numbers::reading::read_number;
use operands::named::{operand_bytes, row_of};
use operands::tokens::is_item;
use outcomes::sides::{sides_outcome, truth_value};
use scaled::compare_zero;
use tables::Outcome;
use tables::tokens::{NAME, SPAN};
use typing::Test;
use typing::sides::test_of;
use values::sides::stop_at;

fn relation_outcome<'a>(
    items: &[u32],
    literals: &[u32],
    bytes: &'a [u8],
    record: &'a [u8],
    subject: u32,
    word: u32,
    negated: bool,
    object: u32,
) -> Outcome
    requires sided { Sided (lend items.now literals.now bytes.now) «record».now subject }
    requires sided_2 { Sided (lend items.now literals.now bytes.now) «record».now object }
    ensures { result ≡ relation_outcome word negated (side_of (lend items.now literals.now bytes.now) «record».now subject) (side_of (lend items.now literals.now bytes.now) «record».now object) }
{
    let row1 = row_of(subject, items, literals);
    let row2 = row_of(object, items, literals);
    let left = operand_bytes(subject, items, literals, bytes, record);
    let right = operand_bytes(object, items, literals, bytes, record);
    sides_outcome(
        is_item(subject),
        row1,
        left,
        is_item(object),
        row2,
        right,
        word,
        negated,
    )
}

fn class_outcome<'a>(
    items: &[u32],
    literals: &[u32],
    bytes: &'a [u8],
    record: &'a [u8],
    subject: u32,
    word: u32,
    negated: bool,
) -> Outcome
    requires { Sided (lend items.now literals.now bytes.now) «record».now subject }
    ensures { result ≡ class_outcome word negated (side_of (lend items.now literals.now bytes.now) «record».now subject) }
{
    let row = row_of(subject, items, literals);
    let part = operand_bytes(subject, items, literals, bytes, record);
    truth_value(negated, class_holds(word, row, part))
}

fn sign_outcome<'a>(
    items: &[u32],
    literals: &[u32],
    bytes: &'a [u8],
    record: &'a [u8],
    subject: u32,
    word: u32,
    negated: bool,
) -> Outcome
    requires sided { Sided (lend items.now literals.now bytes.now) «record».now subject }
    requires subject_value { is_numeric (row_of (lend items.now literals.now bytes.now) subject) ≡ true }
    ensures { result ≡ sign_outcome word negated (side_of (lend items.now literals.now bytes.now) «record».now subject) }
{
    let row = row_of(subject, items, literals);
    let part = operand_bytes(subject, items, literals, bytes, record);
    let number = read_number(row, part);
    if is_item(subject) & !number.valid {
        return stop_at(row, part);
    }
    let order = compare_zero(number.minus, number.digits);
    truth_value(negated, sign_holds(word, order))
}

// The truth of one row: what its simple condition comes to.
pub fn truth_of<'a>(
    items: &[u32],
    literals: &[u32],
    bytes: &'a [u8],
    names: &[u32],
    record: &'a [u8],
    switches: u8,
    subject: u32,
    relation: u32,
    object: u32,
) -> Outcome
    requires { Readable (lend_names items.now literals.now bytes.now names.now) «record».now subject relation object }
    ensures { result ≡ outcome (lend_names items.now literals.now bytes.now names.now) «record».now switches subject relation object }
{
    let test = test_of(relation);
    match test {
        Test::Alone => {
            if subject / SPAN == NAME {
                let name = (subject % SPAN) as usize;
                return name_outcome(items, literals, bytes, names, record, name);
            }
            truth_value(false, switch_on(switches, subject % SPAN))
        }
        Test::Relation { word, negated } => {
            relation_outcome(
                items, literals, bytes, record, subject, word, negated, object,
            )
        }
        Test::Class { word, negated } => {
            class_outcome(items, literals, bytes, record, subject, word, negated)
        }
        Test::Sign { word, negated } => {
            sign_outcome(items, literals, bytes, record, subject, word, negated)
        }
        Test::Unknown => Outcome::False,
    }
}
