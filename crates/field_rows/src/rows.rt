// Which rows are judged record by record with their sides looked up once: relations, and class tests of items.
ghost use Rattle.std.specs.Prelude.{◌≡◌, true, false, length};
ghost use Rattle.tables.specs.Operands.{lend_names};
ghost use Rattle.typing.specs.declared.Test.TheVariants.{Relation};
ghost use Rattle.typing.specs.Tests.{test_of};
ghost use Rattle.block_truths.specs.Columns.{JudgesAt, Judgeable};
ghost use Rattle.field_rows.specs.Judged.{by_fields};

use block_truths::Block;
use grammar::PlanRow;
use operands::named::{operand_bytes, row_of};
use operands::tokens::is_item;
use record_fields::{classify_each, relate_each};
use tables::rows::is_numeric;
use typing::Test;
use typing::sides::test_of;

fn judge_relation<'a>(
    items: &[u32],
    literals: &[u32],
    bytes: &'a [u8],
    names: &[u32],
    records: &'a [u8],
    block: Block,
    switches: u8,
    condition: PlanRow,
    word: u32,
    negated: bool,
    at: &[u8],
    place: u8,
    truths: &mut [u8],
)
    requires judgeable { Judgeable (lend_names items.now literals.now bytes.now names.now) records.now block.from block.size block.n condition × (length at.now ≡ 64) × (length truths.old ≡ 64) }
    requires relation_value { test_of condition.relation ≡ Relation word negated }
    ensures { JudgesAt (lend_names items.now literals.now bytes.now names.now) records.now block.from block.size block.n switches condition at.now place truths.old truths.new }
{
    let subject = condition.subject;
    let object = condition.object;
    let from = block.from;
    let size = block.size;
    let first = &records[from..from + size];
    let row1 = row_of(subject, items, literals);
    let row2 = row_of(object, items, literals);
    let left = operand_bytes(subject, items, literals, bytes, first);
    let right = operand_bytes(object, items, literals, bytes, first);
    let item1 = is_item(subject);
    let item2 = is_item(object);
    let numeric = is_numeric(row1) & is_numeric(row2);
    relate_each(
        records, block, numeric, item1, row1, left, item2, row2, right, word, negated, at, place,
        truths,
    );
}

// Whether a row is judged here; if so, its truths for each record that stands at it.
pub fn judge_fields<'a>(
    items: &[u32],
    literals: &[u32],
    bytes: &'a [u8],
    names: &[u32],
    records: &'a [u8],
    block: Block,
    switches: u8,
    condition: PlanRow,
    at: &[u8],
    place: u8,
    truths: &mut [u8],
) -> bool
    requires { Judgeable (lend_names items.now literals.now bytes.now names.now) records.now block.from block.size block.n condition × (length at.now ≡ 64) × (length truths.old ≡ 64) }
    ensures judges_at { result ≡ true → JudgesAt (lend_names items.now literals.now bytes.now names.now) records.now block.from block.size block.n switches condition at.now place truths.old truths.new }
    ensures truths_unchanged { result ≡ false → truths.new ≡ truths.old }
    ensures value { result ≡ by_fields (test_of condition.relation) }
{
    let test = test_of(condition.relation);
    match test {
        Test::Relation { word, negated } => {
            judge_relation(
                items, literals, bytes, names, records, block, switches, condition, word, negated,
                at, place, truths,
            );
            true
        }
        Test::Class { word, negated } => {
            let row = row_of(condition.subject, items, literals);
            classify_each(records, block, row, word, negated, at, place, truths);
            true
        }
        Test::Alone => false,
        Test::Sign { word, negated } => false,
        Test::Unknown => false,
    }
}
