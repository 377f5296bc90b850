// The truths of one row for the records of a block: 0 for false, 1 for true, 2 where the row stops.
#![tactic(auto)]

ghost use Rattle.std.specs.Prelude.{◌≡◌, length};
ghost use Rattle.tables.specs.Operands.{lend_names};
ghost use Rattle.values.specs.Truth.{outcome, Readable};
ghost use Rattle.block_truths.specs.Columns.{JudgesAt, Judgeable};
ghost use Rattle.block_rows.specs.Judging.{truth_number, Judges};

use block_truths::Block;
use columns::rows::judge_columns;
use field_rows::rows::judge_fields;
use grammar::PlanRow;
use places::fill;
use tables::Outcome;
use tables::tokens::{NAME, SPAN};
use truth::conditions::truth_of;

// The truth of a row where it stops: it is not known here.
const STOPPED: u8 = 2;

fn truth_number(found: Outcome) -> u8
    ensures { result ≡ truth_number found }
{
    match found {
        Outcome::True => 1,
        Outcome::False => 0,
        Outcome::Stopped(stop) => STOPPED,
    }
}

// The truth of one row on one record.
fn judge_record<'a>(
    items: &[u32],
    literals: &[u32],
    bytes: &'a [u8],
    names: &[u32],
    record: &'a [u8],
    switches: u8,
    condition: PlanRow,
) -> u8
    requires { Readable (lend_names items.now literals.now bytes.now names.now) «record».now condition.subject condition.relation condition.object }
    ensures { result ≡ truth_number (outcome (lend_names items.now literals.now bytes.now names.now) «record».now switches condition.subject condition.relation condition.object) }
{
    truth_number(truth_of(
        items,
        literals,
        bytes,
        names,
        record,
        switches,
        condition.subject,
        condition.relation,
        condition.object,
    ))
}

// Each of the first n records that stands at the row, by itself.
fn judge_each<'a>(
    items: &[u32],
    literals: &[u32],
    bytes: &'a [u8],
    names: &[u32],
    records: &'a [u8],
    block: Block,
    switches: u8,
    condition: PlanRow,
    at: &[u8],
    row: u8,
    truths: &mut [u8],
)
    requires judgeable { Judgeable (lend_names items.now literals.now bytes.now names.now) records.now block.from block.size block.n condition }
    requires at_len { (length at.now ≡ 64) × (length truths.old ≡ 64) }
    ensures { JudgesAt (lend_names items.now literals.now bytes.now names.now) records.now block.from block.size block.n switches condition at.now row truths.old truths.new }
{
    let size = block.size;
    let n = block.n;
    let mut base = block.from;
    for j in 0..n {
        if at[j] == row {
            let content = &records[base..base + size];
            truths[j] = judge_record(items, literals, bytes, names, content, switches, condition);
        }
        base += size;
    }
}

// A switch row is judged once, one of digit fields or of short texts by their words, one of other fields with its sides looked up once, and each
// other record by record.
pub fn judge_row<'a>(
    items: &[u32],
    literals: &[u32],
    bytes: &'a [u8],
    names: &[u32],
    records: &'a [u8],
    block: Block,
    switches: u8,
    condition: PlanRow,
    at: &[u8],
    row: u8,
    truths: &mut [u8],
)
    requires judgeable { Judgeable (lend_names items.now literals.now bytes.now names.now) records.now block.from block.size block.n condition }
    requires at_len { (length at.now ≡ 64) × (length truths.old ≡ 64) }
    ensures { Judges (lend_names items.now literals.now bytes.now names.now) records.now block.from block.size block.n switches condition at.now row truths.new }
{
    let subject = condition.subject;
    let relation = condition.relation;
    if (relation == 0) & (subject / SPAN != NAME) {
        let from = block.from;
        let size = block.size;
        let first = &records[from..from + size];
        let truth = judge_record(items, literals, bytes, names, first, switches, condition);
        fill(truths, truth);
        return;
    }
    if judge_columns(
        items, literals, bytes, names, records, block, switches, condition, truths,
    ) {
        return;
    }
    if judge_fields(
        items, literals, bytes, names, records, block, switches, condition, at, row, truths,
    ) {
        return;
    }
    judge_each(
        items, literals, bytes, names, records, block, switches, condition, at, row, truths,
    );
}
