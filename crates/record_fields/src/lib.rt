// A relation or a class test of the records that stand at a row: 0 for false, 1 for true, 2 where it stops.
#![tactic(auto)]

ghost use Rattle.std.specs.Prelude.{◌≡◌, Bool, true, cond, ◌&&◌, ℕ, ◌+◌, ◌<◌, ◌≤◌, length};
ghost use Rattle.tables.specs.Rows.{part, is_numeric};
ghost use Rattle.values.specs.Comparison.{side};
ghost use Rattle.values.specs.Truth.{relation_outcome, class_outcome, Fit, Numeral};
ghost use Rattle.block_truths.specs.Columns.{record_at, Right, Told, Standing, Laid};

use block_truths::Block;
use compare::classes::class_holds;
use compare::orders::relation_holds;
use content::Row;
use numbers::reading::read_number;
use outcomes::sides::{sides_outcome, truth_value};
use scaled::compare_scaled;
use tables::Outcome;
use tables::rows::row_part;

fn truth_number(found: Outcome) -> u8
    ensures { Right found result }
{
    match found {
        Outcome::True => 1,
        Outcome::False => 0,
        Outcome::Stopped(stop) => 2,
    }
}

// The bytes of a side: an item's are part of the record.
fn side_bytes<'a>(item: bool, row: Row, record: &'a [u8], literal: &'a [u8]) -> &'a [u8]
    requires { item ≡ true → row.offset + row.size ≤ length «record».now }
    ensures { result.now ≡ cond item (part row «record».now) literal.now }
{
    if item {
        return row_part(row, record);
    }
    literal
}

// A relation of two numeric sides: 2 where one is not valid, whoever would stop there.
fn value_truth(row1: Row, bytes1: &[u8], row2: Row, bytes2: &[u8], word: u32, negated: bool) -> u8
    requires { Numeral row1 bytes1.now × Numeral row2 bytes2.now }
    ensures { (item1 item2 : Bool) → Right (relation_outcome word negated (side item1 row1 bytes1.now) (side item2 row2 bytes2.now)) result }
{
    let left = read_number(row1, bytes1);
    let right = read_number(row2, bytes2);
    if !(left.valid & right.valid) {
        return 2;
    }
    let order = compare_scaled(
        left.minus,
        left.digits,
        row1.scale,
        right.minus,
        right.digits,
        row2.scale,
    );
    truth_number(truth_value(negated, relation_holds(word, order)))
}

// A relation of two sides, of which it is known whether both are numeric.
fn side_truth(
    numeric: bool,
    item1: bool,
    row1: Row,
    left: &[u8],
    item2: bool,
    row2: Row,
    right: &[u8],
    word: u32,
    negated: bool,
) -> u8
    requires { Fit (side item1 row1 left.now) × Fit (side item2 row2 right.now) × (numeric ≡ is_numeric row1 && is_numeric row2) }
    ensures { Right (relation_outcome word negated (side item1 row1 left.now) (side item2 row2 right.now)) result }
{
    if numeric {
        return value_truth(row1, left, row2, right, word, negated);
    }
    truth_number(sides_outcome(item1, row1, left, item2, row2, right, word, negated))
}

pub fn relate_each<'a>(
    records: &'a [u8],
    block: Block,
    numeric: bool,
    item1: bool,
    row1: Row,
    left: &'a [u8],
    item2: bool,
    row2: Row,
    right: &'a [u8],
    word: u32,
    negated: bool,
    at: &[u8],
    place: u8,
    truths: &mut [u8],
)
    requires laid { Laid records.now block.from block.size block.n × (length at.now ≡ 64) × (length truths.old ≡ 64) × (numeric ≡ is_numeric row1 && is_numeric row2) }
    requires by_index { (k : ℕ) → k < block.n → Fit (side item1 row1 (cond item1 (part row1 (record_at records.now block.from block.size k)) left.now)) × Fit (side item2 row2 (cond item2 (part row2 (record_at records.now block.from block.size k)) right.now)) }
    ensures { Told block.n (Standing at.now place (λ k v. Right (relation_outcome word negated (side item1 row1 (cond item1 (part row1 (record_at records.now block.from block.size k)) left.now)) (side item2 row2 (cond item2 (part row2 (record_at records.now block.from block.size k)) right.now))) v) truths.old) truths.old truths.new }
{
    let size = block.size;
    let n = block.n;
    let mut base = block.from;
    for j in 0..n {
        if at[j] == place {
            let record = &records[base..base + size];
            let first = side_bytes(item1, row1, record, left);
            let second = side_bytes(item2, row2, record, right);
            truths[j] = side_truth(
                numeric, item1, row1, first, item2, row2, second, word, negated,
            );
        }
        base += size;
    }
}

pub fn classify_each(
    records: &[u8],
    block: Block,
    row: Row,
    word: u32,
    negated: bool,
    at: &[u8],
    place: u8,
    truths: &mut [u8],
)
    requires laid { Laid records.now block.from block.size block.n × (length at.now ≡ 64) × (length truths.old ≡ 64) }
    requires by_index { (k : ℕ) → k < block.n → Fit (side true row (part row (record_at records.now block.from block.size k))) }
    ensures { Told block.n (Standing at.now place (λ k v. Right (class_outcome word negated (side true row (part row (record_at records.now block.from block.size k)))) v) truths.old) truths.old truths.new }
{
    let size = block.size;
    let n = block.n;
    let mut base = block.from;
    for j in 0..n {
        if at[j] == place {
            let record = &records[base..base + size];
            let bytes = row_part(row, record);
            let holds = class_holds(word, row, bytes);
            truths[j] = truth_number(truth_value(negated, holds));
        }
        base += size;
    }
}
