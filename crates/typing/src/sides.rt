// What a relation number asks, and the typing of a simple condition.
ghost use Rattle.std.specs.Prelude.{◌≡◌, true, ◌&&◌, []};
ghost use Rattle.tables.specs.Operands.{lend, operand_sound};
ghost use Rattle.typing.specs.Tests.{test_of};
ghost use Rattle.typing.specs.Shape.{operands_sound};
ghost use Rattle.typing.specs.Typing.{fits_beside, side_fits, relation_typed, may_be_numeric, may_be_alphabetic, class_typed, sign_typed, test_typed, typed};

use crate::Test;
use content::Row;
use content::relations::{
    ALPHABETIC_UPPER, EQUAL, GREATER, LESS_OR_EQUAL, NEGATED, NUMERIC, POSITIVE, ZERO,
};
use content::rows::is_packed;
use operands::named::row_of;
use operands::tokens::{is_item, is_literal};
use tables::rows::{is_group, is_numeric};

const NOT_GREATER: u32 = NEGATED + GREATER;

const NOT_EQUAL: u32 = NEGATED + EQUAL;

const NOT_NUMERIC: u32 = NEGATED + NUMERIC;

const NOT_ALPHABETIC_UPPER: u32 = NEGATED + ALPHABETIC_UPPER;

const NOT_POSITIVE: u32 = NEGATED + POSITIVE;

const NOT_ZERO: u32 = NEGATED + ZERO;

// The relation, class or sign test of a relation number, and whether NOT belongs to it.
pub fn test_of(relation: u32) -> Test
    ensures { result ≡ test_of relation }
{
    match relation {
        0 => Test::Alone,
        GREATER..=LESS_OR_EQUAL => Test::Relation {
            word: relation,
            negated: false,
        },
        NUMERIC..=ALPHABETIC_UPPER => Test::Class {
            word: relation,
            negated: false,
        },
        POSITIVE..=ZERO => Test::Sign {
            word: relation,
            negated: false,
        },
        NOT_GREATER..=NOT_EQUAL => Test::Relation {
            word: relation - NEGATED,
            negated: true,
        },
        NOT_NUMERIC..=NOT_ALPHABETIC_UPPER => Test::Class {
            word: relation - NEGATED,
            negated: true,
        },
        NOT_POSITIVE..=NOT_ZERO => Test::Sign {
            word: relation - NEGATED,
            negated: true,
        },
        _ => Test::Unknown,
    }
}

// Whether a numeric side may stand beside one that is not.
fn fits_beside(row: Row) -> bool
    ensures { result ≡ fits_beside row }
{
    (row.scale == 0) & !is_packed(row)
}

// Whether two sides may be compared: an item with a literal of a condition-name too.
pub fn sides_fit(side: Row, other: Row) -> bool
    ensures { result ≡ (side_fits side other && side_fits other side) }
{
    let numeric = is_numeric(side);
    if numeric == is_numeric(other) {
        return true;
    }
    if numeric {
        return fits_beside(side);
    }
    fits_beside(other)
}

fn relation_typed(items: &[u32], literals: &[u32], subject: u32, object: u32) -> bool
    requires subject_value { operand_sound (lend items.now literals.now []) subject ≡ true }
    requires object_value { operand_sound (lend items.now literals.now []) object ≡ true }
    ensures { result ≡ relation_typed (lend items.now literals.now []) subject object }
{
    if is_literal(subject) & is_literal(object) {
        return false;
    }
    sides_fit(
        row_of(subject, items, literals),
        row_of(object, items, literals),
    )
}

// Which rows NUMERIC may test, and which the alphabetic words may.
fn may_be_numeric(row: Row) -> bool
    ensures { result ≡ may_be_numeric row }
{
    (row.kind == Row::ALPHANUMERIC) | (row.kind == Row::UNSIGNED_GROUP) | is_numeric(row)
}

fn may_be_alphabetic(row: Row) -> bool
    ensures { result ≡ may_be_alphabetic row }
{
    is_group(row) | (row.kind == Row::ALPHABETIC) | (row.kind == Row::ALPHANUMERIC)
}

fn class_typed(items: &[u32], literals: &[u32], word: u32, subject: u32) -> bool
    requires { operand_sound (lend items.now literals.now []) subject ≡ true }
    ensures { result ≡ class_typed (lend items.now literals.now []) word subject }
{
    let row = row_of(subject, items, literals);
    if word == NUMERIC {
        return is_item(subject) & may_be_numeric(row);
    }
    is_item(subject) & may_be_alphabetic(row)
}

fn sign_typed(items: &[u32], literals: &[u32], subject: u32) -> bool
    requires { operand_sound (lend items.now literals.now []) subject ≡ true }
    ensures { result ≡ sign_typed (lend items.now literals.now []) subject }
{
    let row = row_of(subject, items, literals);
    is_item(subject) & is_numeric(row)
}

// Whether a simple condition of sound shape is well typed.
pub fn test_typed(items: &[u32], literals: &[u32], test: Test, subject: u32, object: u32) -> bool
    requires { operands_sound (lend items.now literals.now []) test subject object ≡ true }
    ensures { result ≡ test_typed (lend items.now literals.now []) test subject object }
{
    match test {
        Test::Alone => true,
        Test::Relation {
            word: _,
            negated: _,
        } => relation_typed(items, literals, subject, object),
        Test::Class { word, negated: _ } => class_typed(items, literals, word, subject),
        Test::Sign {
            word: _,
            negated: _,
        } => sign_typed(items, literals, subject),
        Test::Unknown => false,
    }
}

// The typing of a row that the planner wrote: its shape is sound.
pub fn well_typed(items: &[u32], literals: &[u32], subject: u32, relation: u32, object: u32) -> bool
    requires { operands_sound (lend items.now literals.now []) (test_of relation) subject object ≡ true }
    ensures { result ≡ typed (lend items.now literals.now []) subject relation object }
{
    test_typed(items, literals, test_of(relation), subject, object)
}
