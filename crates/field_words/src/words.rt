// The words of one field, record by record.
ghost use Rattle.std.specs.Prelude.{◌≡◌, cond, ◌+◌, ◌≤◌, length};
ghost use Rattle.byte_words.specs.Words.{digits_in};
ghost use Rattle.block_truths.specs.Columns.{compared, word_in, field_at, Numbered, Laid, FieldOf, There};

use block_truths::{Bits, Block, Extent, OrderBits};
use byte_words::words::field_word;
use content::Row;
use eight_digits::digits::all_digits;
use places::choose;

// The truth of a row that is not judged here.
const UNJUDGED: u8 = 2;

pub fn extent_of(row: Row) -> Extent
    ensures { (result.end ≡ row.offset + row.size) × (result.width ≡ row.size) }
{
    let width = row.size as usize;
    Extent {
        end: row.offset as usize + width,
        width,
    }
}

// The word of a field of the record that starts at a byte.
pub fn word_at(records: &[u8], base: usize, field: Extent) -> u64
    requires { There (length records.now) base field.end field.width }
    ensures { result ≡ word_in records.now base field.end field.width }
{
    field_word(records, base + field.end, field.width)
}

// By the order of two words, where they are valid.
pub fn compare_words(valid: bool, a: u64, b: u64, order: OrderBits) -> u8
    ensures { result ≡ compared valid order.less order.same order.more a b }
{
    let known = choose(a < b, order.less, choose(a == b, order.same, order.more));
    choose(valid, known, UNJUDGED)
}

// One field of each record, and one word for all.
pub fn compare_field(
    records: &[u8],
    block: Block,
    row: Row,
    word: u64,
    order: OrderBits,
    truths: &mut [u8],
)
    requires laid { Laid records.now block.from block.size block.n × (8 ≤ block.from) × (length truths.old ≡ 64) }
    requires field_of { FieldOf block.size row }
    ensures { Numbered block.n (λ k. compared (digits_in 8 (field_at records.now block.from block.size row k)) order.less order.same order.more (field_at records.now block.from block.size row k) word) truths.old truths.new }
{
    let field = extent_of(row);
    let size = block.size;
    let n = block.n;
    let mut base = block.from;
    for j in 0..n {
        let a = word_at(records, base, field);
        truths[j] = compare_words(all_digits(a), a, word, order);
        base += size;
    }
}

// Whether a field of each record has digits alone.
pub fn test_field(records: &[u8], block: Block, row: Row, bits: Bits, truths: &mut [u8])
    requires laid { Laid records.now block.from block.size block.n × (8 ≤ block.from) × (length truths.old ≡ 64) }
    requires field_of { FieldOf block.size row }
    ensures { Numbered block.n (λ k. cond (digits_in 8 (field_at records.now block.from block.size row k)) bits.holds bits.fails) truths.old truths.new }
{
    let field = extent_of(row);
    let size = block.size;
    let n = block.n;
    let mut base = block.from;
    for j in 0..n {
        let word = word_at(records, base, field);
        truths[j] = choose(all_digits(word), bits.holds, bits.fails);
        base += size;
    }
}
