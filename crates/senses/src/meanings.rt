// What a word means.
ghost use Rattle.std.specs.Prelude.{◌≡◌, true, ◌≤◌, length};
ghost use Rattle.description.specs.Reader.{is_name};
ghost use Rattle.naming.specs.Named.{Listed, known_at};
ghost use Rattle.spelling.specs.Keywords.{vocabulary};
ghost use Rattle.spelling.specs.Meanings.{lookup, named, meaning};
ghost use Rattle.senses.specs.Senses.{text_row, sense_of};

use crate::Sense;
use crate::vocables::vocable;
use content::Row;
use literal_words::numbers::read_number;
use literal_words::quotes::read_text;
use naming::Called;
use naming::names::row_named;
use tables::tokens::FIRST_NAME;
use words::names::is_name;

fn text_row(size: usize) -> Row
    requires { size ≤ 256 }
    ensures { result ≡ text_row size }
{
    Row {
        kind: Row::ALPHANUMERIC,
        offset: 0,
        size: size as u32,
        scale: 0,
        digits: 0,
    }
}

// What has a name. A condition-name is no operand: nothing joins its token.
fn called(description: &[u8], places: &[u32], items: usize, word: &[u8]) -> Result<Sense, u32>
    requires { (is_name word.now ≡ true) × (Listed items places.now) }
    ensures { result ≡ sense_of (named (known_at description.now items places.now) word.now) }
{
    match row_named(description, places, items, word) {
        Some(Called::Item(v)) => Ok(Sense::Item(v)),
        Some(Called::Condition(v)) => Ok(Sense::Token(FIRST_NAME + v)),
        None => Err(16),
    }
}

// A word that is no literal.
fn plain(description: &[u8], places: &[u32], items: usize, word: &[u8]) -> Result<Sense, u32>
    requires { Listed items places.now }
    ensures { result ≡ sense_of (lookup word.now (named (known_at description.now items places.now) word.now) vocabulary) }
{
    if is_name(word) {
        return called(description, places, items, word);
    }
    vocable(word)
}

pub(crate) fn sense_of(
    description: &[u8],
    places: &[u32],
    items: usize,
    word: &[u8],
) -> Result<Sense, u32>
    requires { Listed items places.now }
    ensures { result ≡ sense_of (meaning (known_at description.now items places.now) word.now) }
{
    if let Some(size) = read_text(word) {
        return Ok(Sense::Literal(text_row(size)));
    }
    match read_number(word) {
        Some(row) => Ok(Sense::Literal(row)),
        None => plain(description, places, items, word),
    }
}
