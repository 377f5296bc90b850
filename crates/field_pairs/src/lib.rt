// Two digit fields of each record of a block, compared as words: one test of the two, by what a relation asks.
#![tactic(auto)]

ghost use Rattle.std.specs.Prelude.{◌≡◌, ◌&&◌, ◌≤◌, eqb, ltb, length};
ghost use Rattle.byte_words.specs.Words.{digits_in};
ghost use Rattle.block_truths.specs.Columns.{word_in, field_at, related, tested_at, Numbered, Laid, Field, FieldOf, There};

use block_truths::truths::bits_of;
use block_truths::{Bits, Block, Extent};
use content::Row;
use digit_words::Asked;
use eight_digits::digits::all_digits;
use field_words::words::{extent_of, word_at};
use places::choose;

// The truth of a row that is not judged here.
const UNJUDGED: u8 = 2;

// The words of two fields of a record, and whether both are digits. No Option: each record's truth is chosen without a branch.
#[derive(Clone, Copy)]
struct Pair {
    a: u64,
    b: u64,
    valid: bool,
}

fn pair_at(records: &[u8], base: usize, first: Extent, second: Extent) -> Pair
    requires { There (length records.now) base first.end first.width × There (length records.now) base second.end second.width }
    ensures { (result.a ≡ word_in records.now base first.end first.width) × (result.b ≡ word_in records.now base second.end second.width) × (result.valid ≡ digits_in 8 result.a && digits_in 8 result.b) }
{
    let a = word_at(records, base, first);
    let b = word_at(records, base, second);
    Pair {
        a,
        b,
        valid: all_digits(a) & all_digits(b),
    }
}

// Whether the first of two fields of each record is less.
fn less_fields(
    records: &[u8],
    block: Block,
    first: Extent,
    second: Extent,
    bits: Bits,
    truths: &mut [u8],
)
    requires laid { Laid records.now block.from block.size block.n × (8 ≤ block.from) × (length truths.old ≡ 64) }
    requires field { Field block.size first.end first.width × Field block.size second.end second.width }
    ensures { Numbered block.n (tested_at ltb records.now block.from block.size first second bits) truths.old truths.new }
{
    let size = block.size;
    let n = block.n;
    let mut base = block.from;
    for j in 0..n {
        let pair = pair_at(records, base, first, second);
        let less = choose(pair.a < pair.b, bits.holds, bits.fails);
        truths[j] = choose(pair.valid, less, UNJUDGED);
        base += size;
    }
}

// Whether they are the same. A loop of its own: with the test chosen in one loop, each record takes some instructions more.
fn same_fields(
    records: &[u8],
    block: Block,
    first: Extent,
    second: Extent,
    bits: Bits,
    truths: &mut [u8],
)
    requires laid { Laid records.now block.from block.size block.n × (8 ≤ block.from) × (length truths.old ≡ 64) }
    requires field { Field block.size first.end first.width × Field block.size second.end second.width }
    ensures { Numbered block.n (tested_at eqb records.now block.from block.size first second bits) truths.old truths.new }
{
    let size = block.size;
    let n = block.n;
    let mut base = block.from;
    for j in 0..n {
        let pair = pair_at(records, base, first, second);
        let same = choose(pair.a == pair.b, bits.holds, bits.fails);
        truths[j] = choose(pair.valid, same, UNJUDGED);
        base += size;
    }
}

// A relation of two items.
pub fn relate_fields(
    records: &[u8],
    block: Block,
    row1: Row,
    row2: Row,
    asked: Asked,
    truths: &mut [u8],
)
    requires laid { Laid records.now block.from block.size block.n × (8 ≤ block.from) × (length truths.old ≡ 64) }
    requires field_of { FieldOf block.size row1 × FieldOf block.size row2 }
    ensures { Numbered block.n (λ k. related asked (digits_in 8 (field_at records.now block.from block.size row1 k) && digits_in 8 (field_at records.now block.from block.size row2 k)) (field_at records.now block.from block.size row1 k) (field_at records.now block.from block.size row2 k)) truths.old truths.new }
{
    let first = extent_of(row1);
    let second = extent_of(row2);
    let bits = bits_of(asked.turned);
    if asked.equal {
        same_fields(records, block, first, second, bits, truths);
        return;
    }
    if asked.second {
        less_fields(records, block, second, first, bits, truths);
        return;
    }
    less_fields(records, block, first, second, bits, truths);
}
