// Conditions as tokens, printed.
ghost use Rattle.std.specs.Prelude.{◌≤◌, length};
ghost use Rattle.naming.specs.Named.{Listed, known_at};
ghost use Rattle.spelling.specs.Printing.{printing, print_condition};
ghost use Rattle.books.specs.Calls.{Sized, Prepared, PrintedAs};

use book_names::names::book_of;
use books::PrintRefusal;
use checks::lent::check_tables;
use content::Row;
use printable::refusals::{first_missing, first_unnamed};
use printer::lines::{line_size, put_line};
use tables::Refusal;
use token_checks::tokens::check_token_count;

// The line, where there is room.
fn put(
    description: &[u8],
    places: &[u32],
    items: usize,
    literals: &[u32],
    bytes: &[u8],
    tokens: &[u32],
    text: &mut [u8],
) -> Result<usize, PrintRefusal>
    requires { Prepared description.now items places.now literals.now bytes.now tokens.now }
    ensures { PrintedAs (printing (known_at description.now items places.now) literals.now bytes.now tokens.now) text.old result text.new }
{
    let size = line_size(description, places, items, literals, bytes, tokens);
    if text.len() < size {
        return Err(PrintRefusal::Refused(Refusal::Room(size)));
    }
    put_line(description, places, items, literals, bytes, tokens, text);
    Ok(size)
}

// With tables and tokens that 3 to 5 leave.
fn print_there(
    description: &[u8],
    places: &[u32],
    items: usize,
    literals: &[u32],
    bytes: &[u8],
    tokens: &[u32],
    text: &mut [u8],
) -> Result<usize, PrintRefusal>
    requires { Sized description.now items places.now literals.now bytes.now tokens.now }
    ensures { PrintedAs (printing (known_at description.now items places.now) literals.now bytes.now tokens.now) text.old result text.new }
{
    let missing = first_missing(
        tokens,
        items,
        literals.len() / Row::WIDTH,
        places.len() - items,
    );
    if missing < tokens.len() {
        return Err(PrintRefusal::Refused(Refusal::Token(missing)));
    }
    let unnamed = first_unnamed(description, places, items, tokens);
    if unnamed < tokens.len() {
        return Err(PrintRefusal::Name(unnamed));
    }
    put(description, places, items, literals, bytes, tokens, text)
}

// With the places of the description's names.
fn print_named(
    description: &[u8],
    places: &[u32],
    items: usize,
    literals: &[u32],
    bytes: &[u8],
    tokens: &[u32],
    text: &mut [u8],
) -> Result<usize, PrintRefusal>
    requires { (length description.now ≤ 4096) × Listed items places.now }
    ensures { PrintedAs (printing (known_at description.now items places.now) literals.now bytes.now tokens.now) text.old result text.new }
{
    let tables = check_tables(&literals[..0], literals, bytes);
    if let Err(refusal) = tables {
        return Err(PrintRefusal::Refused(refusal));
    }
    let count = check_token_count(tokens);
    if let Err(refusal) = count {
        return Err(PrintRefusal::Refused(refusal));
    }
    print_there(description, places, items, literals, bytes, tokens, text)
}

// Writes tokens back as text: one space between words, relations as symbols. A refusal changes no output.
pub fn print(
    description: &[u8],
    literals: &[u32],
    bytes: &[u8],
    tokens: &[u32],
    text: &mut [u8],
) -> Result<usize, PrintRefusal>
    ensures { PrintedAs (print_condition description.now literals.now bytes.now tokens.now) text.old result text.new }
{
    let mut places = [0u32; 128];
    let mut rows = [0u32; Row::TABLE];
    let mut content = [0u8; 4096];
    let named = book_of(description, &mut places, &mut rows, &mut content);
    match named {
        Ok(book) => {
            print_named(
                description,
                &places[..book.places],
                book.items,
                literals,
                bytes,
                tokens,
                text,
            )
        }
        Err(place) => Err(PrintRefusal::Description(place)),
    }
}
