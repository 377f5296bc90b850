// The byte at which a token starts.
ghost use Rattle.std.specs.Prelude.{◌≡◌};
ghost use Rattle.naming.specs.Named.{Listed, known_at};
ghost use Rattle.positions.specs.Positions.{text_end, token_place};

use senses::pieces::piece_at;
use splitter::splits::next_word;
use text_bytes::bytes::is_blank;

// The place after the last byte that is no blank.
fn text_end(text: &[u8]) -> usize
    ensures { result ≡ text_end text.now }
{
    let mut end = 0;
    for (i, byte) in text.iter().enumerate() {
        if !is_blank(*byte) {
            end = i + 1;
        }
    }
    end
}

// The first byte of token k; the end of the text where there are fewer.
pub(crate) fn token_place(
    description: &[u8],
    places: &[u32],
    items: usize,
    text: &[u8],
    k: usize,
) -> usize
    requires { Listed items places.now }
    ensures { result ≡ token_place (known_at description.now items places.now) text.now k }
{
    let mut left = k;
    let mut past: usize = 0;
    // The step depends on what is read.
    while past < text.len() {
        let Some(word) = next_word(text, past) else {
            return text_end(text);
        };
        if left == 0 {
            return word.at;
        }
        let piece = piece_at(description, places, items, text, word.at, word.end);
        left -= 1;
        past = piece.past;
    }
    text_end(text)
}
