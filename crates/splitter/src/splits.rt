// The next word of a text, and words that may follow.
ghost use Rattle.std.specs.Prelude.{◌≡◌, ◌≤◌, length};
ghost use Rattle.splitter.specs.Splits.{NextFrom, Past};

use crate::Span;
use crate::runs::word_length;
use keywords::same_bytes;
use text_bytes::bytes::is_blank;

// The next word from a place on: blanks are passed.
pub fn next_word(text: &[u8], from: usize) -> Option<Span>
    requires { from ≤ length text.now }
    ensures { NextFrom text.now from result }
{
    for at in from..text.len() {
        if !is_blank(text[at]) {
            let end = at + word_length(&text[at..]);
            return Some(Span { at, end });
        }
    }
    None
}

// The place after the word, if it is the next one; else `from`.
pub fn skip_word(text: &[u8], from: usize, word: &[u8]) -> usize
    requires { from ≤ length text.now }
    ensures { Past word.now text.now from result }
{
    match next_word(text, from) {
        Some(next) if same_bytes(&text[next.at..next.end], word) => next.end,
        // Two arms, though alike: must-fail/end_passed changes the second alone.
        Some(_) => from,
        None => from,
    }
}
