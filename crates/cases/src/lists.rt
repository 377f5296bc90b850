// The lists of a setting. A word is a number or a word of a condition, and in bytes and records two hexadecimal digits;
// [ .. ] x3 is what stands between the brackets, three times. Bytes may also stand as "text".
ghost use Rattle.std.specs.Prelude.{◌≡◌, drop};
ghost use Rattle.cases.specs.Stores.{pushed_all};
ghost use Rattle.cases.specs.Words.{before};
ghost use Rattle.cases.specs.Lists.{number_of, is_repeat, added, spaced, added_all, set_to};

use crate::store::{BYTES, MARK, RECORD, get, push, put, repeat};
use crate::words::{digits, find, first, token_of};

fn number_of(part: usize, word: &[u8]) -> u32
    ensures { result ≡ number_of part word.now }
{
    match part {
        BYTES | RECORD => digits(word, 16),
        _ => token_of(word),
    }
}

// x and digits; x alone is an item.
fn repeats(word: &[u8]) -> bool
    ensures { result ≡ is_repeat word.now }
{
    word.len() > 1 && word[0] == b'x'
}

fn add(store: &mut [u32], part: usize, word: &[u8])
    ensures { store.new ≡ added store.old part word.now }
{
    if repeats(word) {
        repeat(store, part, digits(word, 10));
        return;
    }
    match first(word) {
        b'[' => put(store, MARK, get(store, part)),
        b']' | 0 => {}
        _ => push(store, part, number_of(part, word)),
    }
}

fn list(store: &mut [u32], part: usize, text: &[u8])
    ensures { store.new ≡ added_all store.old part (spaced text.now) }
{
    let mut at: usize = 0;
    // The step is a word.
    while at < text.len() {
        let end = find(text, at, b' ');
        add(store, part, &text[at..end]);
        at = end + 1;
    }
}

fn quoted(store: &mut [u32], part: usize, text: &[u8])
    ensures { store.new ≡ pushed_all store.old part (before 0x22 (drop 1 text.now)) }
{
    for i in 1..text.len() {
        if text[i] == b'"' {
            return;
        }
        push(store, part, u32::from(text[i]));
    }
}

pub(crate) fn set(store: &mut [u32], part: usize, text: &[u8])
    ensures { store.new ≡ set_to store.old part text.now }
{
    put(store, part, 0);
    if first(text) == b'"' {
        quoted(store, part, text);
    } else {
        list(store, part, text);
    }
}
