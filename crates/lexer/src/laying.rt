// One piece added to what is gathered.
ghost use Rattle.std.specs.Prelude.{◌≡◌, ◌+◌, ◌*◌, ◌≤◌, ◌<◌, length, set};
ghost use Rattle.spelling.specs.Literals.{laid};
ghost use Rattle.literal_bytes.specs.Written.{literal_by};
ghost use Rattle.naming.specs.Named.{known_at};
ghost use Rattle.lexer.specs.Gathers.{over_at, moved_to, with_token, LiteralRoom, LiteralLaid, Ready, Meets, Steps};
ghost use Rattle.content.specs.Kinds.{row_width};

use crate::{Fault, Gathered};
use content::Row;
use literal_bytes::copies::copy_literal;
use senses::{Met, Piece};
use tables::tokens::FIRST_LITERAL;

// A literal's row, laid with its bytes at this offset.
fn lay_row(row: Row, offset: usize, rows: &mut [u32], v: usize)
    requires { (offset ≤ 65535) × (v * row_width + row_width ≤ length rows.old) }
    ensures { rows.new ≡ over_at (v * row_width) (laid (moved_to offset row)) rows.old }
{
    let at = v * Row::WIDTH;
    rows[at] = row.kind;
    rows[at + 1] = offset as u32;
    rows[at + 2] = row.size;
    rows[at + 3] = row.scale;
    rows[at + 4] = row.digits;
}

// A literal: its token, its row and its bytes.
fn add_literal(
    row: Row,
    word: &[u8],
    held: Gathered,
    past: usize,
    tokens: &mut [u32],
    rows: &mut [u32],
    bytes: &mut [u8],
) -> Gathered
    requires { LiteralRoom row word.now held tokens.old rows.old bytes.old }
    ensures { LiteralLaid row word.now held past tokens.old rows.old bytes.old result tokens.new rows.new bytes.new }
{
    let n = held.tokens;
    let v = held.literals;
    let b = held.bytes;
    tokens[n] = FIRST_LITERAL + v as u32;
    lay_row(row, b, rows, v);
    copy_literal(row, word, &mut bytes[b..]);
    Gathered {
        tokens: n + 1,
        literals: v + 1,
        bytes: b + row.size as usize,
        past,
    }
}

fn add_token(t: u32, held: Gathered, past: usize, tokens: &mut [u32]) -> Gathered
    requires { held.tokens < length tokens.old }
    ensures { (result ≡ with_token held past) × (tokens.new ≡ set tokens.old held.tokens t) }
{
    let n = held.tokens;
    tokens[n] = t;
    Gathered {
        tokens: n + 1,
        literals: held.literals,
        bytes: held.bytes,
        past,
    }
}

// The piece of the word from `at` to `end`: what is gathered with it. As `step` answers, where there may be no piece.
pub(crate) fn add(
    description: &[u8],
    places: &[u32],
    items: usize,
    text: &[u8],
    at: usize,
    end: usize,
    piece: Piece,
    held: Gathered,
    tokens: &mut [u32],
    rows: &mut [u32],
    bytes: &mut [u8],
) -> Result<Option<Gathered>, Fault>
    requires ready { Ready text.now held tokens.old rows.old bytes.old }
    requires meets { Meets (known_at description.now items places.now) text.now held.past at end piece }
    ensures { Steps (known_at description.now items places.now) text.now held tokens.old rows.old bytes.old result tokens.new rows.new bytes.new }
{
    match piece.met {
        Ok(met) => match met {
            Met::Token(t) => Ok(Some(add_token(t, held, piece.past, tokens))),
            Met::Literal(row) => {
                if 64 <= held.literals {
                    return Err(Fault {
                        number: 15,
                        place: at,
                    });
                }
                let next = add_literal(row, &text[at..end], held, piece.past, tokens, rows, bytes);
                Ok(Some(next))
            }
        },
        Err(number) => Err(Fault { number, place: at }),
    }
}
