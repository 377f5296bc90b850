// A refusal as sentences on standard error.
use crate::files::back_bytes;
use crate::print::{argument, text};
use crate::wording::item_name;
use fronts::{front, front_bytes};
use line_places::places::{after_ink, line_number, line_rest, line_start};
use lines::text::put;
use positions::refusals::refusal_place;
use refusal_numbers::{number_of, place_of};
use report::messages::{put_caret, put_refusal, put_spot, put_unseen};
use tables::Refusal;

// A line of a text, and a caret as far on in the next.
const LINE: usize = 8400;

// As many names as a description may have.
const NAMES: usize = 128;

// A refusal's number and what it means, after a word.
pub(crate) fn numbered(to: &impl Print, word: &[u8], refused: u32) {
    let mut line = [0u8; LINE];
    let end = put_refusal(&mut line, 0, word, refused);
    text(to, front_bytes(&line, end));
}

pub(crate) fn sentence(rt: HostRuntime, refused: u32) {
    numbered(&rt.stderr(), b"refused: ", refused);
}

// A line of a text, and a caret under one of its bytes.
fn caret(rt: HostRuntime, begun: &[u8], rest: &[u8]) {
    let mut line = [0u8; LINE];
    let begin = put(&mut line, 0, begun);
    let whole = put(&mut line, begin, front_bytes(rest, line_rest(rest)));
    let ended = put(&mut line, whole, b"\n");
    let end = put_caret(&mut line, ended, begun.len());
    text(&rt.stderr(), front_bytes(&line, end));
}

// What nobody sees at the caret, or in the word there.
fn told(rt: HostRuntime, rest: &[u8]) {
    let mut line = [0u8; 32];
    let end = put_unseen(&mut line, 0, after_ink(rest));
    text(&rt.stderr(), front_bytes(&line, end));
}

// Where a byte stands, by what is before it in its text and in its line.
fn spot(rt: HostRuntime, before: &[u8], begun: &[u8]) {
    let mut line = [0u8; LINE];
    let end = put_spot(&mut line, 0, line_number(before), begun.len() + 1);
    text(&rt.stderr(), front_bytes(&line, end));
}

// A refusal of a text, which argument i names, at a place of it.
pub(crate) fn in_text(rt: HostRuntime, refused: u32, i: usize, content: &[u8], place: usize) {
    let before = front_bytes(content, place);
    let begun = back_bytes(before, line_start(before));
    sentence(rt, refused);
    argument(rt, &rt.stderr(), i);
    spot(rt, before, begun);
    let rest = back_bytes(content, place);
    caret(rt, begun, rest);
    told(rt, rest);
}

// The item of a refused row.
fn item_line(rt: HostRuntime, description: &[u8], places: &[u32], v: usize) {
    text(&rt.stderr(), b"item ");
    text(&rt.stderr(), item_name(description, places, v));
    text(&rt.stderr(), b"\n");
}

// A refusal of a record, whose place is the row of an item, or of the copies as a whole.
pub(crate) fn of_record(rt: HostRuntime, refusal: Refusal, description: &[u8], places: &[u32]) {
    let refused = number_of(refusal);
    sentence(rt, refused);
    if (refused == 2) | (refused == 12) | (refused == 19) {
        item_line(rt, description, places, place_of(refusal));
    }
}

// Numbers from a place on, as far as there is room; and the place after them.
fn put_numbers(out: &mut [u32; NAMES], at: usize, numbers: &[u32]) -> usize {
    if at > NAMES {
        return at;
    }
    let count = numbers.len().min(NAMES - at);
    out[at..at + count].copy_from_slice(&numbers[..count]);
    at + count
}

// A refusal of a rule whose words are known, at the word that it means. Names are at these places of the description, the items' first.
fn at_word(
    rt: HostRuntime,
    refusal: Refusal,
    description: &[u8],
    places: &[u32],
    items: usize,
    rule: &[u8],
    tokens: &[u32],
) {
    let refused = number_of(refusal);
    if (refused < 6) | (refused > 9) | (places.len() > NAMES) | (items > places.len()) {
        return sentence(rt, refused);
    }
    let place = refusal_place(
        description,
        places,
        items,
        rule,
        tokens,
        refused,
        place_of(refusal),
    );
    in_text(rt, refused, 3, rule, place);
}

// The first `count` of these places.
fn with_places(
    rt: HostRuntime,
    refusal: Refusal,
    description: &[u8],
    places: &[u32; NAMES],
    count: usize,
    items: usize,
    rule: &[u8],
    tokens: &[u32],
) {
    at_word(
        rt,
        refusal,
        description,
        front(places, count),
        items,
        rule,
        tokens,
    );
}

pub(crate) fn of_rule(
    rt: HostRuntime,
    refusal: Refusal,
    description: &[u8],
    places: &[u32],
    name_places: &[u32],
    rule: &[u8],
    tokens: &[u32],
) {
    let mut every = [0u32; NAMES];
    let items = put_numbers(&mut every, 0, places);
    let count = put_numbers(&mut every, items, name_places);
    with_places(rt, refusal, description, &every, count, items, rule, tokens);
}
