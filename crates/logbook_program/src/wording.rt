// Items by their names, and conditions by their words.
ghost use Rattle.std.specs.Prelude.{◌≡◌, drop};
ghost use Rattle.logbook_program.specs.Worded.{ends_name, name_in, place_of_row, name_of_row, has_byte, item_with, Words};

use content::Row;
use fronts::front_bytes;
use printouts::printing::print;
use tables::rows::{is_group, row_at};

// Whether a name ends before this byte.
fn ends_name(byte: u8) -> bool
    ensures { result ≡ ends_name byte }
{
    (byte == 0x20) | (byte == 0x0A) | (byte == 0x2E)
}

// The bytes of a word from its first on.
fn first_word(rest: &[u8]) -> &[u8]
    ensures { result.now ≡ name_in rest.now }
{
    for (end, byte) in rest.iter().enumerate() {
        if ends_name(*byte) {
            return front_bytes(rest, end);
        }
    }
    rest
}

// The name that stands at a place of a description.
pub(crate) fn name_at(description: &[u8], place: usize) -> &[u8]
    ensures { result.now ≡ name_in (drop place description.now) }
{
    if place < description.len() {
        return first_word(&description[place..]);
    }
    front_bytes(description, 0)
}

// The place of row v, or the end of the description.
fn place_of_row(description: &[u8], places: &[u32], v: usize) -> usize
    ensures { result ≡ place_of_row description.now places.now v }
{
    if v < places.len() {
        return places[v] as usize;
    }
    description.len()
}

// The name of row v.
pub(crate) fn item_name<'a>(description: &'a [u8], places: &[u32], v: usize) -> &'a [u8]
    ensures { result.now ≡ name_of_row description.now places.now v }
{
    name_at(description, place_of_row(description, places, v))
}

// Tokens as words, and how many bytes they have; none where they can't be printed.
pub(crate) fn words(
    description: &[u8],
    literals: &[u32],
    bytes: &[u8],
    tokens: &[u32],
    out: &mut [u8],
) -> usize
    ensures { Words description.now literals.now bytes.now tokens.now out.old result out.new }
{
    match print(description, literals, bytes, tokens, out) {
        Ok(n) => n,
        Err(_) => 0,
    }
}

fn holds(row: Row, byte: usize) -> bool
    ensures { result ≡ has_byte row byte }
{
    let start = row.offset as usize;
    start <= byte && byte - start < row.size as usize
}

// The elementary item that has a byte of the record, of at most 64; 64 where none has it.
pub(crate) fn item_with(items: &[u32], byte: usize) -> usize
    ensures { result ≡ item_with items.now byte }
{
    let count = items.len() / Row::WIDTH;
    if 64 < count {
        return 64;
    }
    for v in 0..count {
        let row = row_at(items, v);
        if !is_group(row) {
            if holds(row, byte) {
                return v;
            }
        }
    }
    64
}
