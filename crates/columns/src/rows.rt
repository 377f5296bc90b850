// Which rows are judged by words: a relation of two unsigned fields of up to 8 digits at one scale, of which one may be a literal, NUMERIC
// of such a field, and a relation of short texts.
ghost use Rattle.std.specs.Prelude.{◌≡◌, true, false, ◌+◌, ◌-◌, ◌≤◌, length, take, drop};
ghost use Rattle.tables.specs.Operands.{lend, lend_names, operand_bytes, Within};
ghost use Rattle.typing.specs.declared.Test.TheVariants.{Relation, Class};
ghost use Rattle.typing.specs.Tests.{test_of};
ghost use Rattle.byte_words.specs.Words.{digit_word, digits_in};
ghost use Rattle.block_truths.specs.Columns.{Laid, FieldOf, Related, JudgesAll, Judgeable};
ghost use Rattle.columns.specs.Judged.{relation_by_words, numeric_by_word, by_words};

use block_truths::Block;
use block_truths::truths::{bits_of, order_bits};
use byte_words::words::short_word;
use content::Row;
use digit_words::Asked;
use digit_words::rows::{asked_of, fits_word};
use eight_digits::digits::all_digits;
use field_pairs::relate_fields;
use field_words::words::{compare_field, test_field};
use grammar::PlanRow;
use operands::named::{operand_bytes, row_of};
use operands::tokens::is_item;
use text_columns::rows::judge_texts;
use typing::Test;
use typing::sides::test_of;

// A relation of an item and a literal, or of a literal and an item: not where the literal is no digits.
fn relate_literal<'a>(
    items: &[u32],
    literals: &[u32],
    bytes: &'a [u8],
    records: &'a [u8],
    block: Block,
    row: Row,
    token: u32,
    asked: Asked,
    exchanged: bool,
    truths: &mut [u8],
) -> bool
    requires laid { Laid records.now block.from block.size block.n × (8 ≤ block.from) × (length truths.old ≡ 64) }
    requires field_of { FieldOf block.size row × (block.from + block.size ≤ length records.now) }
    requires within { Within (lend items.now literals.now bytes.now) (take (block.from + block.size - block.from) (drop block.from records.now)) token × (length (operand_bytes (lend items.now literals.now bytes.now) (take (block.from + block.size - block.from) (drop block.from records.now)) token) ≤ 8) }
    ensures related { result ≡ true → Related records.now block.from block.size block.n row asked exchanged (digit_word (operand_bytes (lend items.now literals.now bytes.now) (take (block.from + block.size - block.from) (drop block.from records.now)) token)) truths.old truths.new }
    ensures truths_unchanged { result ≡ false → truths.new ≡ truths.old }
    ensures value { result ≡ digits_in 8 (digit_word (operand_bytes (lend items.now literals.now bytes.now) (take (block.from + block.size - block.from) (drop block.from records.now)) token)) }
{
    let from = block.from;
    let size = block.size;
    let first = &records[from..from + size];
    let word = short_word(operand_bytes(token, items, literals, bytes, first));
    if !all_digits(word) {
        return false;
    }
    let order = order_bits(asked, exchanged);
    compare_field(records, block, row, word, order, truths);
    true
}

// A relation, where both sides are read as words and have one scale, or are short texts.
fn judge_relation<'a>(
    items: &[u32],
    literals: &[u32],
    bytes: &'a [u8],
    names: &[u32],
    records: &'a [u8],
    block: Block,
    switches: u8,
    condition: PlanRow,
    word: u32,
    negated: bool,
    truths: &mut [u8],
) -> bool
    requires judgeable { Judgeable (lend_names items.now literals.now bytes.now names.now) records.now block.from block.size block.n condition × (8 ≤ block.from) × (length truths.old ≡ 64) }
    requires relation_value { test_of condition.relation ≡ Relation word negated }
    ensures judges_all { result ≡ true → JudgesAll (lend_names items.now literals.now bytes.now names.now) records.now block.from block.size block.n switches condition truths.old truths.new }
    ensures truths_unchanged { result ≡ false → truths.new ≡ truths.old }
    ensures value { result ≡ relation_by_words (lend_names items.now literals.now bytes.now names.now) condition }
{
    let subject = condition.subject;
    let object = condition.object;
    let row1 = row_of(subject, items, literals);
    let row2 = row_of(object, items, literals);
    if !(fits_word(row1) & fits_word(row2) & (row1.scale == row2.scale)) {
        return judge_texts(
            items, literals, bytes, names, records, block, switches, condition, word, negated,
            truths,
        );
    }
    let asked = asked_of(word, negated);
    if is_item(subject) {
        if is_item(object) {
            relate_fields(records, block, row1, row2, asked, truths);
            return true;
        }
        return relate_literal(
            items, literals, bytes, records, block, row1, object, asked, false, truths,
        );
    }
    if is_item(object) {
        return relate_literal(
            items, literals, bytes, records, block, row2, subject, asked, true, truths,
        );
    }
    false
}

// NUMERIC, where the item is read as a word.
fn judge_numeric<'a>(
    items: &[u32],
    literals: &[u32],
    bytes: &'a [u8],
    names: &[u32],
    records: &'a [u8],
    block: Block,
    switches: u8,
    condition: PlanRow,
    negated: bool,
    truths: &mut [u8],
) -> bool
    requires judgeable { Judgeable (lend_names items.now literals.now bytes.now names.now) records.now block.from block.size block.n condition × (8 ≤ block.from) × (length truths.old ≡ 64) }
    requires relation_value { test_of condition.relation ≡ Class 10 negated }
    ensures judges_all { result ≡ true → JudgesAll (lend_names items.now literals.now bytes.now names.now) records.now block.from block.size block.n switches condition truths.old truths.new }
    ensures truths_unchanged { result ≡ false → truths.new ≡ truths.old }
    ensures value { result ≡ numeric_by_word (lend_names items.now literals.now bytes.now names.now) condition }
{
    let subject = condition.subject;
    let row = row_of(subject, items, literals);
    if !(fits_word(row) & is_item(subject)) {
        return false;
    }
    test_field(records, block, row, bits_of(negated), truths);
    true
}

// Whether a row is judged here; if so, its truths for each record. In the file's first bytes a field is not read with what stands before it.
pub fn judge_columns<'a>(
    items: &[u32],
    literals: &[u32],
    bytes: &'a [u8],
    names: &[u32],
    records: &'a [u8],
    block: Block,
    switches: u8,
    condition: PlanRow,
    truths: &mut [u8],
) -> bool
    requires { Judgeable (lend_names items.now literals.now bytes.now names.now) records.now block.from block.size block.n condition × (length truths.old ≡ 64) }
    ensures judges_all { result ≡ true → JudgesAll (lend_names items.now literals.now bytes.now names.now) records.now block.from block.size block.n switches condition truths.old truths.new }
    ensures truths_unchanged { result ≡ false → truths.new ≡ truths.old }
    ensures value { result ≡ by_words (lend_names items.now literals.now bytes.now names.now) block.from condition }
{
    if block.from < 8 {
        return false;
    }
    let test = test_of(condition.relation);
    match test {
        Test::Relation { word, negated } => judge_relation(
            items, literals, bytes, names, records, block, switches, condition, word, negated,
            truths,
        ),
        Test::Class { word, negated } => {
            if word != 10 {
                return false;
            }
            judge_numeric(
                items, literals, bytes, names, records, block, switches, condition, negated, truths,
            )
        }
        Test::Alone => false,
        Test::Sign { word, negated } => false,
        Test::Unknown => false,
    }
}
