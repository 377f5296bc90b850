// The byte of a rule's text at which a refusal of its tokens stands.
ghost use Rattle.std.specs.Prelude.{◌≡◌};
ghost use Rattle.naming.specs.Named.{Listed, known_at};
ghost use Rattle.positions.specs.Positions.{refusal_place};

use crate::numbering::condition_token;
use crate::starts::token_place;

// The place of 6, 7 and 8 is a token, that of 9 a simple condition. Names are at these places of the description, the items' first.
pub fn refusal_place(
    description: &[u8],
    places: &[u32],
    items: usize,
    text: &[u8],
    tokens: &[u32],
    number: u32,
    place: usize,
) -> usize
    requires { Listed items places.now }
    ensures { result ≡ refusal_place (known_at description.now items places.now) text.now tokens.now number place }
{
    let token = if number == 9 {
        condition_token(tokens, place)
    } else {
        place
    };
    token_place(description, places, items, text, token)
}
