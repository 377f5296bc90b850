// The values of a condition-name: a pair of literal rows that its item may be compared with.
#![tactic(auto)]

ghost use Rattle.std.specs.Prelude.{◌≡◌, [], ◌<◌};
ghost use Rattle.tables.specs.Rows.{row_count};
ghost use Rattle.tables.specs.Operands.{lend};
ghost use Rattle.values.specs.Names.{pair_sound, literal_side};
ghost use Rattle.values.specs.Comparison.{comparison};
ghost use Rattle.literal_sides.specs.Ranges.{Literals};

use compare::orders::relation_holds;
use content::Row;
use content::relations::GREATER;
use literal_sides::literals::{compare_literal, held};
use std::cmp::Ordering;
use tables::rows::{is_numeric, row_at, row_part};
use typing::sides::sides_fit;

// How the two ends of a range compare, by their own kinds.
fn compare_ends(literals: &[u32], bytes: &[u8], low: usize, high: usize) -> Ordering
    requires { Literals literals.now bytes.now × (low < row_count literals.now) × (high < row_count literals.now) }
    ensures { result ≡ comparison (literal_side (lend [] literals.now bytes.now) low) (literal_side (lend [] literals.now bytes.now) high) }
{
    let first = row_at(literals, low);
    let last = row_at(literals, high);
    let value = row_part(first, bytes);
    compare_literal(
        false,
        first,
        value,
        held(first, value),
        last,
        row_part(last, bytes),
    )
}

// A value or a range that the item may be compared with.
pub fn pair_sound(item: Row, literals: &[u32], bytes: &[u8], low: usize, high: usize) -> bool
    requires { Literals literals.now bytes.now }
    ensures { result ≡ pair_sound (lend [] literals.now bytes.now) item low high }
{
    let rows = literals.len() / Row::WIDTH;
    if !((low < rows) & (high < rows)) {
        return false;
    }
    let first = row_at(literals, low);
    let last = row_at(literals, high);
    if !(is_numeric(first) == is_numeric(last)) {
        return false;
    }
    if relation_holds(GREATER, compare_ends(literals, bytes, low, high)) {
        return false;
    }
    sides_fit(item, first) & sides_fit(item, last)
}
