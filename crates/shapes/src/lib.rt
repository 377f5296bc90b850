// The shape of a simple condition: its tokens are within their tables, and of the kinds that its relation number asks.
#![tactic(auto)]

ghost use Rattle.std.specs.Prelude.{◌≡◌, ◌&&◌, ◌||◌, [], ℕ, eqb};
ghost use Rattle.tables.specs.Operands.{lend, lend_names, under, operand_sound};
ghost use Rattle.tables.specs.Tokens.{is_operand, is_switch, is_name, exists, name_there};
ghost use Rattle.tables.specs.Rows.{name_count};
ghost use Rattle.typing.specs.Tests.{test_of};
ghost use Rattle.typing.specs.Shape.{shape_sound};
ghost use Rattle.typing.specs.Typing.{typed};

use content::Row;
use operands::tokens::token_there;
use tables::rows::NAME_WIDTH;
use tables::tokens::{ITEM, LITERAL, NAME, SPAN, SWITCH_OFF, SWITCH_ON};
use typing::Test;
use typing::sides::{test_of, test_typed};

fn is_operand(token: u32) -> bool
    ensures { result ≡ is_operand token }
{
    let kind = token / SPAN;
    (kind == ITEM) | (kind == LITERAL)
}

fn operand_exists(items: &[u32], literals: &[u32], token: u32) -> bool
    ensures { result ≡ operand_sound (lend items.now literals.now []) token }
{
    if !is_operand(token) {
        return false;
    }
    let items = items.len() / Row::WIDTH;
    let literals = literals.len() / Row::WIDTH;
    token_there(false, token, items, literals, 0)
}

// A token that is a condition by itself: a switch, or a condition-name.
fn is_alone(token: u32) -> bool
    ensures { result ≡ (is_switch token || is_name token) }
{
    let kind = token / SPAN;
    (kind == SWITCH_ON) | (kind == SWITCH_OFF) | (kind == NAME)
}

// `off`, here and below: the rules have the switch-off words.
fn alone_exists(off: bool, names: &[u32], token: u32) -> bool
    ensures { (items literals : ℕ) → result ≡ (is_switch token && exists off items literals token || name_there (name_count names.now) token) }
{
    let names = names.len() / NAME_WIDTH;
    is_alone(token) & token_there(off, token, 0, 0, names)
}

// The shape of a relation, and that of a class or a sign test.
fn two_operands(items: &[u32], literals: &[u32], subject: u32, object: u32) -> bool
    ensures { result ≡ (operand_sound (lend items.now literals.now []) subject && operand_sound (lend items.now literals.now []) object) }
{
    if !operand_exists(items, literals, subject) {
        return false;
    }
    operand_exists(items, literals, object)
}

fn one_operand(items: &[u32], literals: &[u32], subject: u32, object: u32) -> bool
    ensures { result ≡ (operand_sound (lend items.now literals.now []) subject && eqb object 0) }
{
    operand_exists(items, literals, subject) & (object == 0)
}

// Whether the tokens are within their tables, and of the kinds that the test asks.
fn shape_sound(
    off: bool,
    items: &[u32],
    literals: &[u32],
    names: &[u32],
    test: Test,
    subject: u32,
    object: u32,
) -> bool
    ensures { result ≡ shape_sound (under off (lend_names items.now literals.now [] names.now)) test subject object }
{
    match test {
        Test::Alone => alone_exists(off, names, subject) & (object == 0),
        Test::Relation {
            word: _,
            negated: _,
        } => two_operands(items, literals, subject, object),
        Test::Class {
            word: _,
            negated: _,
        } => one_operand(items, literals, subject, object),
        Test::Sign {
            word: _,
            negated: _,
        } => one_operand(items, literals, subject, object),
        Test::Unknown => false,
    }
}

// The shape and the typing of a row that a caller lends.
pub fn condition_sound(
    off: bool,
    items: &[u32],
    literals: &[u32],
    names: &[u32],
    subject: u32,
    relation: u32,
    object: u32,
) -> bool
    ensures { result ≡ (shape_sound (under off (lend_names items.now literals.now [] names.now)) (test_of relation) subject object && typed (under off (lend_names items.now literals.now [] names.now)) subject relation object) }
{
    let test = test_of(relation);
    if !shape_sound(off, items, literals, names, test, subject, object) {
        return false;
    }
    test_typed(items, literals, test, subject, object)
}
