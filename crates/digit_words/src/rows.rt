// Which rows are read as words, and what a relation asks of two.
ghost use Rattle.std.specs.Prelude.{◌≡◌};
ghost use Rattle.digit_words.specs.Words.{fits_word};
ghost use Rattle.digit_words.specs.Asked.{asked_of};

use crate::Asked;
use content::Row;
use content::relations::{EQUAL, GREATER, GREATER_OR_EQUAL, LESS};

// Unsigned digits, at most as many as a word has bytes.
pub fn fits_word(row: Row) -> bool
    ensures { result ≡ fits_word row }
{
    (row.kind == Row::UNSIGNED) & (row.size <= 8)
}

fn asked(equal: bool, second: bool, turned: bool) -> Asked
    ensures { result ≡ record { equal = equal; second = second; turned = turned } }
{
    Asked {
        equal,
        second,
        turned,
    }
}

pub fn asked_of(word: u32, negated: bool) -> Asked
    ensures { result ≡ asked_of word negated }
{
    match word {
        GREATER => asked(false, true, negated),
        LESS => asked(false, false, negated),
        EQUAL => asked(true, false, negated),
        GREATER_OR_EQUAL => asked(false, false, !negated),
        _ => asked(false, true, !negated),
    }
}
