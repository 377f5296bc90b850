// Which relations are judged by the words of texts: those of two texts or groups of up to 8 bytes, of which one may be a literal.
ghost use Rattle.std.specs.Prelude.{◌≡◌, true, false, ◌+◌, ◌-◌, ◌≤◌, max, length, take, drop};
ghost use Rattle.tables.specs.Operands.{lend, lend_names, operand_bytes, Within};
ghost use Rattle.typing.specs.declared.Test.TheVariants.{Relation};
ghost use Rattle.typing.specs.Tests.{test_of};
ghost use Rattle.block_truths.specs.Columns.{related_to, Numbered, JudgesAll, Laid, Judgeable};
ghost use Rattle.text_words.specs.Texts.{text_word};
ghost use Rattle.record_texts.specs.Texts.{text_of, TextOf};
ghost use Rattle.text_columns.specs.TextColumns.{by_texts, Literal};

use block_truths::Block;
use block_truths::truths::order_bits;
use content::Row;
use digit_words::Asked;
use digit_words::rows::asked_of;
use grammar::PlanRow;
use operands::named::{operand_bytes, row_of};
use operands::tokens::is_item;
use record_texts::{compare_text, compare_texts};
use text_words::texts::{fits_text, short_filled};

fn wide(x: u32) -> usize
    ensures { result ≡ x }
{
    x as usize
}

// The bytes to which both sides are filled: the longer one's.
fn filled_size(row1: Row, row2: Row) -> usize
    ensures { result ≡ max row1.size row2.size }
{
    if row1.size < row2.size {
        return wide(row2.size);
    }
    wide(row1.size)
}

// A relation of an item and a literal, or of a literal and an item. The literal's word is made once.
fn relate_literal<'a>(
    items: &[u32],
    literals: &[u32],
    bytes: &'a [u8],
    records: &'a [u8],
    block: Block,
    row: Row,
    filled: usize,
    token: u32,
    asked: Asked,
    exchanged: bool,
    truths: &mut [u8],
)
    requires laid { Laid records.now block.from block.size block.n × (8 ≤ block.from) × (length truths.old ≡ 64) }
    requires text_of { TextOf block.size row filled × (block.from + block.size ≤ length records.now) }
    requires within { Within (lend items.now literals.now bytes.now) (take (block.from + block.size - block.from) (drop block.from records.now)) token × Literal (operand_bytes (lend items.now literals.now bytes.now) (take (block.from + block.size - block.from) (drop block.from records.now)) token) filled }
    ensures { Numbered block.n (λ k. related_to asked exchanged true (text_of records.now block.from block.size row filled k) (text_word filled (operand_bytes (lend items.now literals.now bytes.now) (take (block.from + block.size - block.from) (drop block.from records.now)) token))) truths.old truths.new }
{
    let from = block.from;
    let size = block.size;
    let first = &records[from..from + size];
    let word = short_filled(operand_bytes(token, items, literals, bytes, first), filled);
    let order = order_bits(asked, exchanged);
    compare_text(records, block, row, filled, word, order, truths);
}

// Whether a relation is judged here; if so, its truths for each record.
pub fn judge_texts<'a>(
    items: &[u32],
    literals: &[u32],
    bytes: &'a [u8],
    names: &[u32],
    records: &'a [u8],
    block: Block,
    switches: u8,
    condition: PlanRow,
    word: u32,
    negated: bool,
    truths: &mut [u8],
) -> bool
    requires judgeable { Judgeable (lend_names items.now literals.now bytes.now names.now) records.now block.from block.size block.n condition × (8 ≤ block.from) × (length truths.old ≡ 64) }
    requires relation_value { test_of condition.relation ≡ Relation word negated }
    ensures judges_all { result ≡ true → JudgesAll (lend_names items.now literals.now bytes.now names.now) records.now block.from block.size block.n switches condition truths.old truths.new }
    ensures truths_unchanged { result ≡ false → truths.new ≡ truths.old }
    ensures value { result ≡ by_texts (lend_names items.now literals.now bytes.now names.now) condition }
{
    let subject = condition.subject;
    let object = condition.object;
    let row1 = row_of(subject, items, literals);
    let row2 = row_of(object, items, literals);
    if !(fits_text(row1) & fits_text(row2)) {
        return false;
    }
    let asked = asked_of(word, negated);
    let filled = filled_size(row1, row2);
    if is_item(subject) {
        if is_item(object) {
            let order = order_bits(asked, false);
            compare_texts(records, block, row1, row2, filled, order, truths);
            return true;
        }
        relate_literal(
            items, literals, bytes, records, block, row1, filled, object, asked, false, truths,
        );
        return true;
    }
    if is_item(object) {
        relate_literal(
            items, literals, bytes, records, block, row2, filled, subject, asked, true, truths,
        );
        return true;
    }
    false
}
