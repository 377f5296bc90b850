// A word and the words that join it.
ghost use Rattle.std.specs.Prelude.{◌≡◌, ◌≤◌, ◌<◌, length};
ghost use Rattle.spelling.specs.Keywords.{order};
ghost use Rattle.spelling.specs.Meanings.{meaning};
ghost use Rattle.naming.specs.Named.{Listed, known_at};
ghost use Rattle.splitter.specs.Splits.{between};
ghost use Rattle.senses.specs.Senses.{PastOrEqual, PieceAfter, PieceBy};
ghost use Rattle.description.specs.Grammar.{bytes};
ghost use Rattle.tables.specs.Words.{EQUAL};

use crate::meanings::sense_of;
use crate::{Met, Piece, Sense};
use splitter::splits::skip_word;
use tables::words::EQUAL;

// The place after OR EQUAL, with or without TO; else `from`.
fn skip_or_equal(text: &[u8], from: usize) -> usize
    requires { from ≤ length text.now }
    ensures { PastOrEqual text.now from result }
{
    let or = skip_word(text, from, b"OR");
    if or == from {
        return from;
    }
    let equal = skip_word(text, or, b"EQUAL");
    if equal == or {
        return from;
    }
    skip_word(text, equal, b"TO")
}

// GREATER or LESS.
fn order_at(text: &[u8], end: usize, plain: u32, joined: u32) -> Piece
    requires { end ≤ length text.now }
    ensures { PieceBy (order plain joined) text.now end result }
{
    let than = skip_word(text, end, b"THAN");
    let past = skip_or_equal(text, than);
    let token = if past == than { plain } else { joined };
    Piece {
        met: Ok(Met::Token(token)),
        past,
    }
}

// An operand, which IS may follow.
fn operand_at(met: Met, text: &[u8], end: usize) -> Piece
    requires { end ≤ length text.now }
    ensures { PieceAfter (bytes "IS") met text.now end result }
{
    Piece {
        met: Ok(met),
        past: skip_word(text, end, b"IS"),
    }
}

// EQUAL.
fn equal_at(text: &[u8], end: usize) -> Piece
    requires { end ≤ length text.now }
    ensures { PieceAfter (bytes "TO") (Met.Token EQUAL) text.now end result }
{
    Piece {
        met: Ok(Met::Token(EQUAL)),
        past: skip_word(text, end, b"TO"),
    }
}

// The word from `at` to `end`, with those that join it.
pub fn piece_at(
    description: &[u8],
    places: &[u32],
    items: usize,
    text: &[u8],
    at: usize,
    end: usize,
) -> Piece
    requires { (Listed items places.now) × (at < end) × (end ≤ length text.now) }
    ensures { PieceBy (meaning (known_at description.now items places.now) (between text.now at end)) text.now end result }
{
    match sense_of(description, places, items, &text[at..end]) {
        Ok(Sense::Token(t)) => Piece {
            met: Ok(Met::Token(t)),
            past: end,
        },
        Ok(Sense::Item(t)) => operand_at(Met::Token(t), text, end),
        Ok(Sense::Literal(row)) => operand_at(Met::Literal(row), text, end),
        Ok(Sense::Order(plain, joined)) => order_at(text, end, plain, joined),
        Ok(Sense::Equal) => equal_at(text, end),
        Err(number) => Piece {
            met: Err(number),
            past: end,
        },
    }
}
