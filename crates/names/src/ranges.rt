// A condition-name's truth: its item is read once, and compared with each value or range until one holds.
ghost use Rattle.std.specs.Prelude.{◌≡◌, true, false, [], ◌<◌};
ghost use Rattle.tables.specs.Rows.{row_count};
ghost use Rattle.tables.specs.Operands.{lend, lend_names};
ghost use Rattle.values.specs.Comparison.{side, comparison};
ghost use Rattle.values.specs.Names.{literal_side, in_range, name_holds};
ghost use Rattle.values.specs.Truth.{name_outcome, Named, Fit};
ghost use Rattle.literal_sides.specs.Ranges.{Held, Literals, Pairs};

use compare::Number;
use compare::orders::relation_holds;
use content::Row;
use literal_sides::literals::{compare_literal, held, number_at};
use std::cmp::Ordering;
use tables::Outcome;
use tables::rows::{NAME_WIDTH, row_at, row_part};
use values::sides::stop_at;

// The item and a literal, by its row.
fn compare_end(
    row: Row,
    part: &[u8],
    number: Number,
    literals: &[u32],
    bytes: &[u8],
    end: usize,
) -> Ordering
    requires fit { Fit (side true row part.now) × Held row part.now number }
    requires literals { Literals literals.now bytes.now × (end < row_count literals.now) }
    ensures { result ≡ comparison (side true row part.now) (literal_side (lend [] literals.now bytes.now) end) }
{
    let literal = row_at(literals, end);
    compare_literal(true, row, part, number, literal, row_part(literal, bytes))
}

// The item lies in a range, ends included; of a single value, whose ends are one literal, one comparison tells.
fn in_range(
    row: Row,
    part: &[u8],
    number: Number,
    literals: &[u32],
    bytes: &[u8],
    low: usize,
    high: usize,
) -> bool
    requires fit { Fit (side true row part.now) × Held row part.now number }
    requires literals { Literals literals.now bytes.now × (low < row_count literals.now) × (high < row_count literals.now) }
    ensures { result ≡ in_range (side true row part.now) (literal_side (lend [] literals.now bytes.now) low) (literal_side (lend [] literals.now bytes.now) high) }
{
    let order = compare_end(row, part, number, literals, bytes, low);
    if low == high {
        return relation_holds(7, order);
    }
    if !relation_holds(8, order) {
        return false;
    }
    relation_holds(9, compare_end(row, part, number, literals, bytes, high))
}

// Whether the item lies in one of the name's ranges: they are tried in order.
fn some_range(
    row: Row,
    part: &[u8],
    number: Number,
    literals: &[u32],
    bytes: &[u8],
    names: &[u32],
    v: usize,
) -> bool
    requires fit { Fit (side true row part.now) × Held row part.now number }
    requires literals { Literals literals.now bytes.now × Pairs literals.now names.now v }
    ensures { result ≡ name_holds (lend_names [] literals.now bytes.now names.now) (side true row part.now) v }
{
    let at = v * NAME_WIDTH;
    let pairs = number_at(names, at + 1);
    for k in 0..pairs {
        let low = number_at(names, at + 2 + k * 2);
        let high = number_at(names, at + 3 + k * 2);
        if in_range(row, part, number, literals, bytes, low, high) {
            return true;
        }
    }
    false
}

// What condition-name v comes to: the stop at its item's first wrong byte, or its truth.
pub fn name_outcome(
    items: &[u32],
    literals: &[u32],
    bytes: &[u8],
    names: &[u32],
    record: &[u8],
    v: usize,
) -> Outcome
    requires { Named (lend_names items.now literals.now bytes.now names.now) «record».now v }
    ensures { result ≡ name_outcome (lend_names items.now literals.now bytes.now names.now) «record».now v }
{
    let row = row_at(items, number_at(names, v * NAME_WIDTH));
    let part = row_part(row, record);
    let number = held(row, part);
    if !number.valid {
        return stop_at(row, part);
    }
    if some_range(row, part, number, literals, bytes, names, v) {
        return Outcome::True;
    }
    Outcome::False
}
