// What a rule says of a record: its verdict, or where it stops and on what.
ghost use Rattle.std.specs.Prelude.{◌≡◌};
ghost use Rattle.logbook_program.specs.Worded.{Words, token_count, row_tokens, condition_tokens};

use crate::print::text;
use crate::wording::{item_name, item_with, words};
use content::relations::{NEGATED, NUMERIC};
use fronts::{front, front_bytes};
use grammar::PlanRow;
use plan_rows::rows::plan_row;
use tables::tokens::FIRST_WORD;
use tables::words::NOT;
use verdict_lines::verdicts::{put_judged, put_stop, put_verdict};

// No condition has more bytes of words: two literals of 256 quotes each, NOT and a relation.
const WORDS: usize = 2048;

// With an item's name and what is said around them.
const LINES: usize = 2304;

// How many tokens a row's condition has. A switch or a condition-name stands alone; class and sign words have no object.
fn token_count(relation: u32) -> usize
    ensures { result ≡ token_count relation }
{
    if relation == 0 {
        return 1;
    }
    if relation < NUMERIC {
        return 3;
    }
    if relation < NEGATED {
        return 2;
    }
    if relation % NEGATED < NUMERIC {
        return 4;
    }
    3
}

// These tokens, and others after them.
fn row_tokens(row: PlanRow) -> [u32; 4]
    ensures { result ≡ row_tokens row }
{
    let word = FIRST_WORD + row.relation % NEGATED;
    if row.relation < NEGATED {
        return [row.subject, word, row.object, 0];
    }
    [row.subject, NOT, word, row.object]
}

// A row's condition in words; how many bytes they have.
pub(crate) fn condition(
    description: &[u8],
    literals: &[u32],
    bytes: &[u8],
    row: PlanRow,
    out: &mut [u8],
) -> usize
    ensures { Words description.now literals.now bytes.now (condition_tokens row) out.old result out.new }
{
    let tokens = row_tokens(row);
    words(
        description,
        literals,
        bytes,
        front(&tokens, token_count(row.relation)),
        out,
    )
}

// The condition in row k of a plan; nothing where there is no such row.
fn condition_at(
    description: &[u8],
    literals: &[u32],
    bytes: &[u8],
    plan: &[u32],
    k: usize,
    out: &mut [u8],
) -> usize {
    if k < plan.len() / 5 {
        return condition(description, literals, bytes, plan_row(plan, k), out);
    }
    0
}

fn stop_lines(rt: HostRuntime, condition: &[u8], item: &[u8], byte: usize, held: u8) {
    let mut lines = [0u8; LINES];
    let end = put_stop(&mut lines, 0, condition, item, byte, held);
    text(&rt.stdout(), front_bytes(&lines, end));
}

// At a byte that lies in the record: the calls stop at no other.
fn stop_at(rt: HostRuntime, condition: &[u8], item: &[u8], record: &[u8], byte: usize) {
    if byte < record.len() {
        stop_lines(rt, condition, item, byte, record[byte]);
    }
}

// Where a rule stops: the condition, the item and the byte.
pub(crate) fn stop(
    rt: HostRuntime,
    description: &[u8],
    items: &[u32],
    places: &[u32],
    literals: &[u32],
    bytes: &[u8],
    plan: &[u32],
    record: &[u8],
    at: usize,
    byte: usize,
) {
    let mut asked = [0u8; WORDS];
    let n = condition_at(description, literals, bytes, plan, at, &mut asked);
    let item = item_name(description, places, item_with(items, byte));
    stop_at(rt, front_bytes(&asked, n), item, record, byte);
}

// The verdict, and how many conditions were judged.
pub(crate) fn verdict(rt: HostRuntime, truth: bool, count: usize) {
    let mut lines = [0u8; LINES];
    let end = put_verdict(&mut lines, 0, truth, count);
    text(&rt.stdout(), front_bytes(&lines, end));
}

pub(crate) fn judged(rt: HostRuntime, count: usize) {
    let mut line = [0u8; LINES];
    let end = put_judged(&mut line, 0, count);
    text(&rt.stdout(), front_bytes(&line, end));
}
