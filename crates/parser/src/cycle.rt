// Condition, chain, term and body call each other over the tokens. Each writes the rows of what it reads as if it were the whole
// condition; whoever called it turns their verdicts into the targets that they lead to. A condition loops over its chains and a
// chain over its terms, so that only a bracket takes more of the stack.
ghost use Rattle.std.specs.Prelude.{◌≤◌, length};
ghost use Rattle.grammar.specs.Parser.{parse_condition, parse_chain, parse_term, parse_body};
ghost use Rattle.parser.specs.Parses.{Room, Plans, Placeable, Placed, Parses};

use crate::Part;
use content::relations::NEGATED;
use plans::Target;
use plans::rows::{put_row, retarget};
use simples::simple::{read_object, read_simple};
use simples::words::{is_order, peek};
use simples::{Carried, Single};
use tables::tokens::FIRST_WORD;
use tables::words::{AND, CLOSE, NOT, OPEN, OR};

#[cycle(body_chain_condition_term)]
fn condition(
    tokens: &[u32],
    mut at: usize,
    mut carry: Carried,
    mut row: usize,
    rows: &mut [u32],
) -> Result<Part, usize>
    requires { Room tokens.now at row rows.old }
    ensures { Plans parse_condition 3 tokens.now at carry row rows.old result rows.new }
{
    loop {
        let part = chain(tokens, at, carry, row, rows)?;
        if peek(tokens, part.next) != OR {
            return Ok(part);
        }
        let rest = Target::later(part.row);
        let done = Target::verdict(true);
        retarget(rows, row, part.row, done, rest);
        at = part.next + 1;
        carry = part.carry;
        row = part.row;
    }
}

#[cycle(body_chain_condition_term)]
fn chain(
    tokens: &[u32],
    mut at: usize,
    mut carry: Carried,
    mut row: usize,
    rows: &mut [u32],
) -> Result<Part, usize>
    requires { Room tokens.now at row rows.old }
    ensures { Plans parse_chain 2 tokens.now at carry row rows.old result rows.new }
{
    loop {
        let part = term(tokens, at, carry, row, rows)?;
        if peek(tokens, part.next) != AND {
            return Ok(part);
        }
        let rest = Target::later(part.row);
        let done = Target::verdict(false);
        retarget(rows, row, part.row, rest, done);
        at = part.next + 1;
        carry = part.carry;
        row = part.row;
    }
}

// NOT before > < = belongs to the relation, where one is carried; any other NOT is logical.
#[cycle(body_chain_condition_term)]
fn term(
    tokens: &[u32],
    at: usize,
    carry: Carried,
    row: usize,
    rows: &mut [u32],
) -> Result<Part, usize>
    requires { Room tokens.now at row rows.old }
    ensures { Plans parse_term 1 tokens.now at carry row rows.old result rows.new }
{
    let here = peek(tokens, at);
    let after = peek(tokens, at + 1);
    let relation = carry.relation;
    if is_order(here) & (relation != 0) {
        return put_single(
            read_object(tokens, at + 1, carry.subject, here - FIRST_WORD),
            row,
            rows,
        );
    }
    if here != NOT {
        return body(tokens, at, carry, row, rows);
    }
    if is_order(after) & (relation != 0) {
        return put_single(
            read_object(tokens, at + 2, carry.subject, after - FIRST_WORD + NEGATED),
            row,
            rows,
        );
    }
    let inner = body(tokens, at + 1, carry, row, rows)?;
    retarget(
        rows,
        row,
        inner.row,
        Target::verdict(false),
        Target::verdict(true),
    );
    Ok(inner)
}

#[cycle(body_chain_condition_term)]
fn body(
    tokens: &[u32],
    at: usize,
    carry: Carried,
    row: usize,
    rows: &mut [u32],
) -> Result<Part, usize>
    requires { Room tokens.now at row rows.old }
    ensures { Plans parse_body 0 tokens.now at carry row rows.old result rows.new }
{
    if peek(tokens, at) != OPEN {
        return put_single(read_simple(tokens, at, carry), row, rows);
    }
    let nothing = Carried {
        subject: 0,
        relation: 0,
    };
    let inner = condition(tokens, at + 1, nothing, row, rows)?;
    if peek(tokens, inner.next) != CLOSE {
        return Err(inner.next);
    }
    Ok(Part {
        next: inner.next + 1,
        carry: nothing,
        row: inner.row,
    })
}

// The row of a simple condition that was read.
fn put_single(single: Result<Single, usize>, row: usize, rows: &mut [u32]) -> Result<Part, usize>
    requires { Placeable single row × (640 ≤ length rows.old) }
    ensures { Placed single row rows.old result rows.new }
{
    let read = single?;
    put_row(rows, row, read.subject, read.relation, read.object);
    Ok(Part {
        next: read.next,
        carry: read.carry,
        row: row + 1,
    })
}

// The plan's rows of a whole sequence, from the start of the buffer, and how many they are; or refusal 7's place.
pub fn parse(tokens: &[u32], rows: &mut [u32]) -> Result<usize, usize>
    requires { (length tokens.now ≤ 256) × (640 ≤ length rows.old) }
    ensures { Parses tokens.now result rows.old rows.new }
{
    let nothing = Carried {
        subject: 0,
        relation: 0,
    };
    let whole = condition(tokens, 0, nothing, 0, rows)?;
    if whole.next != tokens.len() {
        return Err(whole.next);
    }
    Ok(whole.row)
}
