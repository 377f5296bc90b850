// One literal, as it is written.
ghost use Rattle.std.specs.Prelude.{◌≡◌, true, ◌≤◌, length};
ghost use Rattle.description.specs.Stages.{is_literal};
ghost use Rattle.literal_pairs.specs.Spelling.{literal_of, row_found, held_row};

use content::Row;
use literal_words::numbers::read_number;
use literal_words::quotes::read_text;
use text_bytes::bytes::byte_at;

// The row of a nonnumeric literal of n bytes.
fn text_row(n: usize) -> Row
    requires { n ≤ 256 }
    ensures { result ≡ held_row n }
{
    Row {
        kind: Row::ALPHANUMERIC,
        offset: 0,
        size: n as u32,
        scale: 0,
        digits: 0,
    }
}

// The row of a literal whose bytes would be laid at offset 0, where 01's limits let it have one.
pub fn literal_row(word: &[u8]) -> Option<Row>
    requires { is_literal word.now ≡ true }
    ensures { result ≡ row_found (literal_of word.now) }
{
    if byte_at(word, 0) == 0x22 {
        // Not `?`: the proof would name a step after the byte above, which must-fail/apostrophe changes.
        return match read_text(word) {
            Some(n) => Some(text_row(n)),
            None => None,
        };
    }
    read_number(word)
}
