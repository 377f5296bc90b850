// The row that has a name.
ghost use Rattle.std.specs.Prelude.{◌≡◌, true, false, ◌+◌, ◌≤◌, length, drop};
ghost use Rattle.description.specs.Grammar.{all, is_name_byte, same};
ghost use Rattle.spelling.specs.Names.{leading, names_at};
ghost use Rattle.spelling.specs.Meanings.{position};
ghost use Rattle.naming.specs.Named.{known_at, Listed, called_by};

use crate::Called;
use crate::parts::rest_from;
use text_bytes::bytes::{byte_at, is_name_byte};

// Whether the name at the head of these bytes is another one by the word's last byte alone: names are often alike but for their ends.
fn ends_apart(word: &[u8], rest: &[u8]) -> bool
    requires { length word.now ≤ length rest.now }
    ensures { result ≡ true → same word.now (leading rest.now) ≡ false }
{
    let n = word.len();
    if n == 0 {
        return false;
    }
    rest[n - 1] != word[n - 1]
}

// Whether the word is the name at the head of these bytes.
fn same_name(word: &[u8], rest: &[u8]) -> bool
    requires { all is_name_byte word.now ≡ true }
    ensures { result ≡ same word.now (leading rest.now) }
{
    if rest.len() < word.len() {
        return false;
    }
    if ends_apart(word, rest) {
        return false;
    }
    // Not `starts_with` or `==`, which look past the first byte that differs.
    for k in 0..word.len() {
        if rest[k] != word[k] {
            return false;
        }
    }
    !is_name_byte(byte_at(rest, word.len()))
}

// The first row from `from` on that has this name, or the number of rows.
fn first_named(description: &[u8], places: &[u32], word: &[u8], from: usize) -> usize
    requires { (all is_name_byte word.now ≡ true) × (from ≤ length places.now) }
    ensures { result ≡ from + position word.now (drop from (names_at description.now places.now)) }
{
    for k in from..places.len() {
        if same_name(word, rest_from(description, places[k])) {
            return k;
        }
    }
    places.len()
}

// What has this name, if nothing else has it. The first `items` places are items', the others conditions': names of both are one set.
pub fn row_named(description: &[u8], places: &[u32], items: usize, word: &[u8]) -> Option<Called>
    requires { (all is_name_byte word.now ≡ true) × Listed items places.now }
    ensures { result ≡ called_by word.now (known_at description.now items places.now) }
{
    let first = first_named(description, places, word, 0);
    if first == places.len() {
        return None;
    }
    let second = first_named(description, places, word, first + 1);
    if second != places.len() {
        return None;
    }
    if first < items {
        return Some(Called::Item(first as u32));
    }
    Some(Called::Condition((first - items) as u32))
}
