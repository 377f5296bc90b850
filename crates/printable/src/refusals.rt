// Refusals of the printer: 6 and 16.
ghost use Rattle.std.specs.Prelude.{◌≡◌, true, ◌≤◌, ◌<◌, ◌/◌, ◌%◌, length, get_or, drop};
ghost use Rattle.naming.specs.Named.{Listed, known_at};
ghost use Rattle.spelling.specs.Names.{leading};
ghost use Rattle.spelling.specs.Printing.{uniquely, has_name};
ghost use Rattle.printable.specs.Passing.{may_print, passing, There, AllThere};

use keywords::same_bytes;
use naming::names::row_named;
use naming::parts::name_part;
use operands::tokens::token_there;
use tables::tokens::{ITEM, NAME, SPAN};

// Whether there is such a token: an off switch is none.
fn may_print(token: u32, items: usize, literals: usize, names: usize) -> bool
    ensures { result ≡ may_print items literals names token }
{
    token_there(false, token, items, literals, names)
}

// How many tokens stand before the first that there is not.
pub fn first_missing(tokens: &[u32], items: usize, literals: usize, names: usize) -> usize
    ensures { result ≡ passing (may_print items literals names) tokens.now }
{
    for (i, token) in tokens.iter().enumerate() {
        if !may_print(*token, items, literals, names) {
            return i;
        }
    }
    tokens.len()
}

// Whether the name at a place is no FILLER, and that of no other item or condition.
fn named_once(description: &[u8], places: &[u32], items: usize, place: u32) -> bool
    requires { Listed items places.now }
    ensures { result ≡ uniquely (known_at description.now items places.now) (leading (drop place description.now)) }
{
    let name = name_part(description, place);
    if same_bytes(name, b"FILLER") {
        return false;
    }
    row_named(description, places, items, name).is_some()
}

fn has_name(description: &[u8], places: &[u32], items: usize, token: u32) -> bool
    requires { Listed items places.now × There items places.now token }
    ensures { result ≡ has_name (known_at description.now items places.now) token }
{
    let kind = token / SPAN;
    let v = (token % SPAN) as usize;
    if kind == ITEM {
        return named_once(description, places, items, places[v]);
    }
    if kind == NAME {
        return named_once(description, places, items, places[items + v]);
    }
    true
}

// How many tokens stand before the first that is FILLER, or has a doubled name.
pub fn first_unnamed(description: &[u8], places: &[u32], items: usize, tokens: &[u32]) -> usize
    requires { Listed items places.now × AllThere items places.now tokens.now }
    ensures { result ≡ passing (has_name (known_at description.now items places.now)) tokens.now }
{
    for (i, token) in tokens.iter().enumerate() {
        if !has_name(description, places, items, *token) {
            return i;
        }
    }
    tokens.len()
}
