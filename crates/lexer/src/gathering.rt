// The pieces of a text, one after the other.
ghost use Rattle.std.specs.Prelude.{◌≡◌, ◌≤◌, ◌<◌, length};
ghost use Rattle.naming.specs.Named.{Listed, known_at};
ghost use Rattle.lexer.specs.Gathers.{Ready, Steps, Rooms, early_by, book_in, Lexes};

use crate::laying::add;
use crate::{Fault, Gathered};
use senses::pieces::piece_at;
use splitter::splits::next_word;

const TOO_LONG: Fault = Fault {
    number: 15,
    place: 2048,
};

// The next piece gathered, if there is one.
fn step(
    description: &[u8],
    places: &[u32],
    items: usize,
    text: &[u8],
    held: Gathered,
    tokens: &mut [u32],
    rows: &mut [u32],
    bytes: &mut [u8],
) -> Result<Option<Gathered>, Fault>
    requires { Listed items places.now × Ready text.now held tokens.old rows.old bytes.old }
    ensures { Steps (known_at description.now items places.now) text.now held tokens.old rows.old bytes.old result tokens.new rows.new bytes.new }
{
    let Some(word) = next_word(text, held.past) else {
        return Ok(None);
    };
    let piece = piece_at(description, places, items, text, word.at, word.end);
    add(
        description,
        places,
        items,
        text,
        word.at,
        word.end,
        piece,
        held,
        tokens,
        rows,
        bytes,
    )
}

// "byte 2,048 is refused with 15": what stands before it is refused first.
fn early(fault: Fault) -> Fault
    ensures { result ≡ early_by fault }
{
    if fault.place < 2048 {
        return fault;
    }
    TOO_LONG
}

// The first `literals` rows and `content` bytes are the description's: the text's go on from there.
pub fn gather(
    description: &[u8],
    places: &[u32],
    items: usize,
    text: &[u8],
    literals: usize,
    content: usize,
    tokens: &mut [u32],
    rows: &mut [u32],
    bytes: &mut [u8],
) -> Result<Gathered, Fault>
    requires { Listed items places.now × Rooms tokens.old rows.old bytes.old × (literals ≤ 64) × (content ≤ 4096) }
    ensures { Lexes (book_in (known_at description.now items places.now) literals content rows.old bytes.old) text.now tokens.old rows.old bytes.old result tokens.new rows.new bytes.new }
{
    let mut held = Gathered {
        tokens: 0,
        literals,
        bytes: content,
        past: 0,
    };
    // The step depends on what is read.
    while held.past < 2048 {
        match step(description, places, items, text, held, tokens, rows, bytes) {
            Ok(Some(next)) => held = next,
            Ok(None) => {
                if text.len() <= 2048 {
                    return Ok(held);
                }
                return Err(TOO_LONG);
            }
            Err(fault) => return Err(early(fault)),
        }
    }
    if text.len() <= 2048 {
        return Ok(held);
    }
    Err(TOO_LONG)
}
