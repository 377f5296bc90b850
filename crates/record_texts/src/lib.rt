// The words of one text or of two, record by record, filled to one length.
#![tactic(auto)]

ghost use Rattle.std.specs.Prelude.{◌≡◌, true, ◌≤◌, length};
ghost use Rattle.block_truths.specs.Columns.{compared, Numbered, Laid, There};
ghost use Rattle.record_texts.specs.Texts.{text_in, text_of, TextOf};

use block_truths::{Block, Extent, OrderBits};
use content::Row;
use field_words::words::{compare_words, extent_of};
use text_words::texts::filled_text;

// The word of a text of the record that starts at a byte.
fn text_at(records: &[u8], base: usize, text: Extent, filled: usize) -> u64
    requires { There (length records.now) base text.end text.width × (text.width ≤ filled) × (filled ≤ 8) }
    ensures { result ≡ text_in records.now base text.end text.width filled }
{
    filled_text(records, base + text.end, text.width, filled)
}

// Two texts of each record.
pub fn compare_texts(
    records: &[u8],
    block: Block,
    row1: Row,
    row2: Row,
    filled: usize,
    order: OrderBits,
    truths: &mut [u8],
)
    requires laid { Laid records.now block.from block.size block.n × (8 ≤ block.from) × (length truths.old ≡ 64) }
    requires text_of { TextOf block.size row1 filled × TextOf block.size row2 filled }
    ensures { Numbered block.n (λ k. compared true order.less order.same order.more (text_of records.now block.from block.size row1 filled k) (text_of records.now block.from block.size row2 filled k)) truths.old truths.new }
{
    let first = extent_of(row1);
    let second = extent_of(row2);
    let size = block.size;
    let n = block.n;
    let mut base = block.from;
    for j in 0..n {
        let a = text_at(records, base, first, filled);
        let b = text_at(records, base, second, filled);
        truths[j] = compare_words(true, a, b, order);
        base += size;
    }
}

// One text of each record, and one word for all.
pub fn compare_text(
    records: &[u8],
    block: Block,
    row: Row,
    filled: usize,
    word: u64,
    order: OrderBits,
    truths: &mut [u8],
)
    requires laid { Laid records.now block.from block.size block.n × (8 ≤ block.from) × (length truths.old ≡ 64) }
    requires text_of { TextOf block.size row filled }
    ensures { Numbered block.n (λ k. compared true order.less order.same order.more (text_of records.now block.from block.size row filled k) word) truths.old truths.new }
{
    let text = extent_of(row);
    let size = block.size;
    let n = block.n;
    let mut base = block.from;
    for j in 0..n {
        let a = text_at(records, base, text, filled);
        truths[j] = compare_words(true, a, word, order);
        base += size;
    }
}
