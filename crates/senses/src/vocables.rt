// Words that mean something by themselves.
ghost use Rattle.std.specs.Prelude.{◌≡◌};
ghost use Rattle.spelling.specs.Keywords.{faulty, vocabulary};
ghost use Rattle.spelling.specs.Meanings.{lookup};
ghost use Rattle.senses.specs.Senses.{sense_of, meaning_at};

use crate::Sense;
use tables::tokens::{FIRST_ON, FIRST_WORD};
use tables::words::{GREATER, GREATER_OR_EQUAL, LESS, LESS_OR_EQUAL};
use vocabulary::spellings::{AT_EQUAL, AT_GREATER, AT_LESS, AT_SWITCHES, word_index};

// The sense of word k; any other word is refused.
fn sense_at(k: usize) -> Result<Sense, u32>
    ensures { result ≡ sense_of (meaning_at k) }
{
    if k < AT_SWITCHES {
        return Ok(Sense::Token(FIRST_WORD + k as u32));
    }
    if k < AT_GREATER {
        return Ok(Sense::Token(FIRST_ON + (k - AT_SWITCHES) as u32));
    }
    match k {
        AT_GREATER => Ok(Sense::Order(GREATER, GREATER_OR_EQUAL)),
        AT_LESS => Ok(Sense::Order(LESS, LESS_OR_EQUAL)),
        AT_EQUAL => Ok(Sense::Equal),
        _ => Err(15),
    }
}

pub(crate) fn vocable(word: &[u8]) -> Result<Sense, u32>
    ensures { result ≡ sense_of (lookup word.now (faulty 15) vocabulary) }
{
    sense_at(word_index(word))
}
