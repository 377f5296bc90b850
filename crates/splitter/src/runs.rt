// How far a word goes.
ghost use Rattle.std.specs.Prelude.{◌≡◌, false};
ghost use Rattle.spelling.specs.Words.{ends_word, runs, word_length};
ghost use Rattle.splitter.specs.Splits.{stops, turned};

use text_bytes::bytes::byte_at;

fn ends_word(b: u8) -> bool
    ensures { result ≡ ends_word b }
{
    ((b == 0x20) | (b == 0x0a))
        | ((b == 0x28) | (b == 0x29))
        | ((b == 0x3e) | (b == 0x3c))
        | (b == 0x3d)
}

// Whether the byte ends a word, inside quotes or outside.
fn stops_word(quoted: bool, b: u8) -> bool
    ensures { result ≡ stops quoted b }
{
    if quoted {
        return false;
    }
    ends_word(b)
}

// Whether what comes after the byte is inside quotes.
fn turn(quoted: bool, b: u8) -> bool
    ensures { result ≡ turned quoted b }
{
    if quoted {
        return !(b == 0x22);
    }
    b == 0x22
}

fn run_length(bytes: &[u8]) -> usize
    ensures { result ≡ runs false bytes.now }
{
    let mut quoted = false;
    for (i, b) in bytes.iter().enumerate() {
        if stops_word(quoted, *b) {
            return i;
        }
        quoted = turn(quoted, *b);
    }
    bytes.len()
}

// The number of bytes of the word that begins with the first byte, which is no blank.
pub(crate) fn word_length(bytes: &[u8]) -> usize
    ensures { result ≡ word_length bytes.now }
{
    let b = byte_at(bytes, 0);
    if ((b == 0x28) | (b == 0x29)) | (b == 0x3d) {
        return 1;
    }
    if (b == 0x3e) | (b == 0x3c) {
        if byte_at(bytes, 1) == 0x3d {
            return 2;
        }
        return 1;
    }
    run_length(bytes)
}
