// The word of a text, filled on the right with spaces.
ghost use Rattle.std.specs.Prelude.{◌≡◌, ◌+◌, ◌-◌, ◌*◌, ◌^◌, ◌≤◌, ◌<◌, length, take, drop, replicate};
ghost use Rattle.byte_words.specs.Words.{word_from};
ghost use Rattle.text_words.specs.Texts.{fits_text, text_word};

use byte_words::words::{mask, word_before};
use content::Row;
use tables::rows::is_group;

// Bytes that are not looked at, at most as many as a word has.
pub fn fits_text(row: Row) -> bool
    ensures { result ≡ fits_text row }
{
    (is_group(row) | (row.kind == Row::ALPHANUMERIC)) & (row.size <= 8)
}

fn spaces(count: usize) -> u64
    requires { count ≤ 7 }
    ensures { result ≡ word_from 0 (replicate count 0x20) }
{
    0x2020202020202020 & ((1 << (8 * count)) - 1)
}

// A word of so many bytes, with spaces after them.
fn fill(word: u64, size: usize, n: usize) -> u64
    requires { (1 ≤ size) × (size ≤ n) × (n ≤ 8) × (word < 2 ^ (8 * size)) }
    ensures { result ≡ word * 2 ^ (8 * (n - size)) + word_from 0 (replicate (n - size) 0x20) }
{
    let more = n - size;
    (word << (8 * more)) | spaces(more)
}

// The word of a text that ends at a place which has 8 bytes before it, in the text or not.
pub fn filled_text(bytes: &[u8], end: usize, size: usize, n: usize) -> u64
    requires le_end { (8 ≤ end) × (end ≤ length bytes.now) }
    requires le_size { (1 ≤ size) × (size ≤ n) × (n ≤ 8) }
    ensures { result ≡ text_word n (take size (drop (end - size) bytes.now)) }
{
    fill(word_before(bytes, end) & mask(size), size, n)
}

// The same of a text that may have fewer than 8 bytes before its end, as a literal's: byte by byte.
pub fn short_filled(bytes: &[u8], n: usize) -> u64
    requires { (1 ≤ length bytes.now) × (length bytes.now ≤ n) × (n ≤ 8) }
    ensures { result ≡ text_word n bytes.now }
{
    let mut word: u64 = 0;
    for b in bytes {
        word = word * 256 + *b as u64;
    }
    fill(word, bytes.len(), n)
}
