// Names and literals of a description.
ghost use Rattle.std.specs.Prelude.{◌≡◌, ◌≤◌, length};
ghost use Rattle.books.specs.Calls.{NamedBy};

use books::Book;
use content::Row;
use describing::Described;
use descriptions::calls::describe;
use outputs::copies::copy_numbers;
use tables::rows::NAME_TABLE;

// The places of the names, or FILLER, of a description's rows, those of its conditions after them; and its literals. Beyond what is
// counted the buffers stay as they were, and where the description is refused; then the answer is the place of 14.
pub fn book_of(
    description: &[u8],
    places: &mut [u32],
    rows: &mut [u32],
    bytes: &mut [u8],
) -> Result<Book, usize>
    requires { (128 ≤ length places.old) × (320 ≤ length rows.old) × (4096 ≤ length bytes.old) }
    ensures { NamedBy description.now places.old rows.old bytes.old result places.new rows.new bytes.new }
{
    let mut items = [0u32; Row::TABLE];
    let mut names = [0u32; NAME_TABLE];
    let mut others = [0u32; 64];
    let described = describe(
        description,
        &mut items,
        places,
        &mut names,
        &mut others,
        rows,
        bytes,
    );
    match described {
        Described::Counts(_, n, _, k, v, b) => {
            copy_numbers(&others, k, &mut places[n..]);
            Ok(Book {
                items: n,
                places: n + k,
                literals: v / Row::WIDTH,
                bytes: b,
            })
        }
        Described::Faulty(place) => Err(place),
        Described::Room(needed) => Err(needed),
    }
}
