// rule: the rule as read, in full, as a plan, and the items that it may look at.
ghost use Rattle.std.specs.Prelude.{◌≤◌};

use crate::files::large;
use crate::print::text;
use crate::refusals::sentence;
use crate::verdicts::condition;
use crate::wording::item_name;
use forms::calls::expand;
use fronts::{front, front_bytes};
use grammar::PlanRow;
use looks::calls::named_items;
use plan_lines::plans::put_plan_row;
use plan_rows::rows::plan_row;
use printouts::printing::print;
use refusal_numbers::number_of;

const EXPANDED: usize = 634;

// The words of one row, and its line.
const ROW_WORDS: usize = 2048;

const LINE: usize = 2304;

const ROWS: usize = 64;

// Tokens as a line of words: there is room for those of 634 tokens, unless they repeat the longest literals.
fn line(rt: HostRuntime, description: &[u8], literals: &[u32], bytes: &[u8], tokens: &[u32]) {
    let mut words = large();
    if let Ok(n) = print(description, literals, bytes, tokens, &mut words) {
        text(&rt.stdout(), front_bytes(&words, n));
        text(&rt.stdout(), b"\n");
    } else {
        sentence(rt, 10);
    }
}

fn in_full(
    rt: HostRuntime,
    description: &[u8],
    items: &[u32],
    names: &[u32],
    literals: &[u32],
    bytes: &[u8],
    tokens: &[u32],
) {
    let mut full = [0u32; EXPANDED];
    let expanded = expand(items, literals, bytes, names, tokens, &mut full);
    match expanded {
        Ok(n) => line(rt, description, literals, bytes, front(&full, n)),
        Err(refusal) => sentence(rt, number_of(refusal)),
    }
}

fn arrows(rt: HostRuntime, k: usize, words: &[u8], holds: u32, fails: u32) {
    let mut line = [0u8; LINE];
    let end = put_plan_row(&mut line, 0, k, words, holds, fails);
    text(&rt.stdout(), front_bytes(&line, end));
}

fn row_line(
    rt: HostRuntime,
    description: &[u8],
    literals: &[u32],
    bytes: &[u8],
    k: usize,
    row: PlanRow,
) {
    let mut words = [0u8; ROW_WORDS];
    let n = condition(description, literals, bytes, row, &mut words);
    arrows(rt, k, front_bytes(&words, n), row.holds, row.fails);
}

fn plan_lines(rt: HostRuntime, description: &[u8], literals: &[u32], bytes: &[u8], plan: &[u32]) {
    let rows = plan.len() / 5;
    for k in 0..rows {
        row_line(rt, description, literals, bytes, k, plan_row(plan, k));
    }
}

fn name_line(rt: HostRuntime, description: &[u8], places: &[u32], v: usize) {
    text(&rt.stdout(), item_name(description, places, v));
    text(&rt.stdout(), b"\n");
}

// A line for each of these items.
fn name_lines(rt: HostRuntime, description: &[u8], places: &[u32], rows: &[u32]) {
    for row in rows {
        name_line(rt, description, places, *row as usize);
    }
}

fn looks(rt: HostRuntime, description: &[u8], places: &[u32], rows: &[u32]) {
    if rows.len() == 0 {
        return text(&rt.stdout(), b"It looks at no item.\n");
    }
    text(&rt.stdout(), b"It may look at:\n");
    name_lines(rt, description, places, rows);
}

// Every item that the rule names, looked at or not.
fn named(
    rt: HostRuntime,
    description: &[u8],
    items: &[u32],
    places: &[u32],
    names: &[u32],
    literals: &[u32],
    bytes: &[u8],
    tokens: &[u32],
) {
    let mut rows = [0u32; ROWS];
    let listed = named_items(items, literals, bytes, names, tokens, &mut rows);
    match listed {
        Ok(n) => looks(rt, description, places, front(&rows, n)),
        Err(refusal) => sentence(rt, number_of(refusal)),
    }
}

pub(crate) fn show_rule(
    rt: HostRuntime,
    description: &[u8],
    items: &[u32],
    places: &[u32],
    names: &[u32],
    literals: &[u32],
    bytes: &[u8],
    tokens: &[u32],
    plan: &[u32],
) -> u32
    ensures { result ≤ 2 }
{
    text(&rt.stdout(), b"The rule:\n");
    line(rt, description, literals, bytes, tokens);
    text(&rt.stdout(), b"In full:\n");
    in_full(rt, description, items, names, literals, bytes, tokens);
    text(&rt.stdout(), b"Its plan:\n");
    plan_lines(rt, description, literals, bytes, plan);
    named(
        rt,
        description,
        items,
        places,
        names,
        literals,
        bytes,
        tokens,
    );
    0
}
