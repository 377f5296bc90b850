// The call that users make to read.
ghost use Rattle.std.specs.Prelude.{◌≡◌, ◌≤◌, length};
ghost use Rattle.naming.specs.Named.{Listed, known_at};
ghost use Rattle.lexer.specs.Gathers.{book_in};
ghost use Rattle.spelling.specs.Reading.{reading, read_condition};
ghost use Rattle.books.specs.Calls.{refused_as, ReadAs};

use book_names::names::book_of;
use books::given::give;
use books::{Counts, ReadRefusal};
use content::Row;
use lexer::Fault;
use lexer::gathering::gather;

// The refusal of a text, by its number.
fn refused(fault: Fault) -> ReadRefusal
    ensures { result ≡ refused_as fault.number fault.place }
{
    match fault.number {
        14 => ReadRefusal::Description(fault.place),
        15 => ReadRefusal::Word(fault.place),
        16 => ReadRefusal::Name(fault.place),
        _ => ReadRefusal::TokenCount,
    }
}

// With the names of a description, and its first `count` rows and `size` bytes of literals.
fn read_named(
    description: &[u8],
    places: &[u32],
    items: usize,
    condition: &[u8],
    count: usize,
    size: usize,
    rows: &mut [u32],
    content: &mut [u8],
    tokens: &mut [u32],
    literals: &mut [u32],
    bytes: &mut [u8],
) -> Result<Counts, ReadRefusal>
    requires { Listed items places.now × (320 ≤ length rows.old) × (6400 ≤ length content.old) × (count ≤ 64) × (size ≤ 4096) }
    ensures { ReadAs (reading (book_in (known_at description.now items places.now) count size rows.old content.old) condition.now) tokens.old literals.old bytes.old result tokens.new literals.new bytes.new }
{
    let mut gathered = [0u32; 2048];
    let lexed = gather(
        description,
        places,
        items,
        condition,
        count,
        size,
        &mut gathered,
        rows,
        content,
    );
    match lexed {
        Ok(held) => give(held, &gathered, rows, content, tokens, literals, bytes),
        Err(fault) => Err(refused(fault)),
    }
}

// Reads a condition text into tokens, literal rows of five numbers and literal bytes; names come from a
// record description, whose literals are the first ones. A refusal changes no output.
pub fn read(
    description: &[u8],
    condition: &[u8],
    tokens: &mut [u32],
    literals: &mut [u32],
    bytes: &mut [u8],
) -> Result<Counts, ReadRefusal>
    ensures { ReadAs (read_condition description.now condition.now) tokens.old literals.old bytes.old result tokens.new literals.new bytes.new }
{
    let mut places = [0u32; 128];
    let mut rows = [0u32; Row::TABLE];
    let mut content = [0u8; 6400];
    let named = book_of(description, &mut places, &mut rows, &mut content);
    match named {
        Ok(book) => {
            read_named(
                description,
                &places[..book.places],
                book.items,
                condition,
                book.literals,
                book.bytes,
                &mut rows,
                &mut content,
                tokens,
                literals,
                bytes,
            )
        }
        Err(place) => Err(ReadRefusal::Description(place)),
    }
}
