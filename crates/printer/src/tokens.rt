// The word of one token.
ghost use Rattle.std.specs.Prelude.{◌≡◌, true, ◌≤◌, length, drop};
ghost use Rattle.tables.specs.Tables.{literal_sound};
ghost use Rattle.spelling.specs.Literals.{written};
ghost use Rattle.naming.specs.Named.{known_at};
ghost use Rattle.spelling.specs.Names.{leading};
ghost use Rattle.spelling.specs.Printing.{word_of};
ghost use Rattle.literal_bytes.specs.Written.{written_over};
ghost use Rattle.printer.specs.Prints.{literal_of, Printable};

use content::Row;
use literal_bytes::copies::copy_bytes;
use naming::parts::name_part;
use pointing::points::{pointed_size, put_pointed};
use quoting::parts::{put_quoted, quoted_size};
use tables::rows::{row_at, row_part};
use tables::tokens::{ITEM, LITERAL, NAME, SPAN, SWITCH_ON};
use vocabulary::spellings::{AT_SWITCHES, copy_word, word_size};

// Inlined, the proofs of `token_size` and `put_token` didn't close.
fn wide(x: u32) -> usize
    ensures { result ≡ x }
{
    x as usize
}

fn literal_size(row: Row, bytes: &[u8]) -> usize
    requires { literal_sound bytes.now row ≡ true }
    ensures { result ≡ length (written (literal_of row bytes.now)) }
{
    let part = row_part(row, bytes);
    if row.kind == Row::ALPHANUMERIC {
        return quoted_size(part);
    }
    pointed_size(wide(row.scale), part)
}

fn put_literal(row: Row, bytes: &[u8], out: &mut [u8])
    requires { (literal_sound bytes.now row ≡ true) × (length (written (literal_of row bytes.now)) ≤ length out.old) }
    ensures { out.new ≡ written_over (written (literal_of row bytes.now)) out.old }
{
    let part = row_part(row, bytes);
    if row.kind == Row::ALPHANUMERIC {
        put_quoted(part, out);
        return;
    }
    put_pointed(wide(row.scale), part, out);
}

fn name_size(description: &[u8], place: u32) -> usize
    ensures { result ≡ length (leading (drop place description.now)) }
{
    let name = name_part(description, place);
    name.len()
}

fn put_name(description: &[u8], place: u32, out: &mut [u8])
    requires { length (leading (drop place description.now)) ≤ length out.old }
    ensures { out.new ≡ written_over (leading (drop place description.now)) out.old }
{
    let name = name_part(description, place);
    copy_bytes(name, out);
}

pub(crate) fn token_size(
    description: &[u8],
    places: &[u32],
    items: usize,
    literals: &[u32],
    bytes: &[u8],
    token: u32,
) -> usize
    requires { Printable description.now items places.now literals.now bytes.now token }
    ensures { result ≡ length (word_of (known_at description.now items places.now) literals.now bytes.now token) }
{
    let v = wide(token % SPAN);
    let kind = token / SPAN;
    if kind == ITEM {
        return name_size(description, places[v]);
    }
    if kind == LITERAL {
        return literal_size(row_at(literals, v), bytes);
    }
    if kind == SWITCH_ON {
        return word_size(AT_SWITCHES + v);
    }
    if kind == NAME {
        return name_size(description, places[items + v]);
    }
    word_size(v)
}

pub(crate) fn put_token(
    description: &[u8],
    places: &[u32],
    items: usize,
    literals: &[u32],
    bytes: &[u8],
    token: u32,
    out: &mut [u8],
)
    requires printable { Printable description.now items places.now literals.now bytes.now token }
    requires token_in_bounds { length (word_of (known_at description.now items places.now) literals.now bytes.now token) ≤ length out.old }
    ensures { out.new ≡ written_over (word_of (known_at description.now items places.now) literals.now bytes.now token) out.old }
{
    let v = wide(token % SPAN);
    let kind = token / SPAN;
    if kind == ITEM {
        put_name(description, places[v], out);
        return;
    }
    if kind == LITERAL {
        put_literal(row_at(literals, v), bytes, out);
        return;
    }
    if kind == SWITCH_ON {
        copy_word(AT_SWITCHES + v, out);
        return;
    }
    if kind == NAME {
        put_name(description, places[items + v], out);
        return;
    }
    copy_word(v, out);
}
