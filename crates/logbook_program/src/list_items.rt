// items: a table of what a description says.
ghost use Rattle.std.specs.Prelude.{◌≤◌};

use crate::print::text;
use crate::wording::{item_name, name_at, words};
use content::Row;
use fronts::front_bytes;
use item_lines::rows::put_item;
use name_lines::{put_heading, put_name, put_value};
use tables::rows::{NAME_WIDTH, row_at};
use tables::tokens::{FIRST_LITERAL, SPAN};

// How many rows a name table may have.
const ROWS: usize = 64;

// A name of 30 bytes and columns.
const LINE: usize = 128;

// A literal of 256 quotes.
const VALUE: usize = 520;

// Two of them, and a word between.
const RANGE: usize = 1064;

fn row_line(rt: HostRuntime, description: &[u8], places: &[u32], v: usize, row: Row) {
    let mut line = [0u8; LINE];
    let end = put_item(&mut line, 0, v, item_name(description, places, v), row);
    text(&rt.stdout(), front_bytes(&line, end));
}

// A literal as it is written, and how many bytes it has.
fn literal(description: &[u8], literals: &[u32], bytes: &[u8], row: u32, out: &mut [u8]) -> usize {
    if row < SPAN {
        let token = [FIRST_LITERAL + row];
        return words(description, literals, bytes, &token, out);
    }
    0
}

// One value, or a range of them.
fn value(rt: HostRuntime, description: &[u8], literals: &[u32], bytes: &[u8], low: u32, high: u32) {
    let mut least = [0u8; VALUE];
    let mut most = [0u8; VALUE];
    let mut line = [0u8; RANGE];
    let n = literal(description, literals, bytes, low, &mut least);
    let m = literal(description, literals, bytes, high, &mut most);
    let end = put_value(
        &mut line,
        0,
        front_bytes(&least, n),
        front_bytes(&most, m),
        low != high,
    );
    text(&rt.stdout(), front_bytes(&line, end));
}

// The values in a row of the name table.
fn values(rt: HostRuntime, description: &[u8], literals: &[u32], bytes: &[u8], name: &[u32]) {
    if name.len() < NAME_WIDTH {
        return;
    }
    let count = name[1] as usize;
    if 8 < count {
        return;
    }
    for i in 0..count {
        value(
            rt,
            description,
            literals,
            bytes,
            name[2 * i + 2],
            name[2 * i + 3],
        );
    }
}

// The name table from row k on.
fn names_from(names: &[u32], k: usize) -> &[u32] {
    if k < ROWS {
        let from = k * NAME_WIDTH;
        if from <= names.len() {
            return &names[from..];
        }
    }
    names
}

fn name_line(
    rt: HostRuntime,
    description: &[u8],
    place: usize,
    name: &[u32],
    literals: &[u32],
    bytes: &[u8],
) {
    let mut line = [0u8; LINE];
    let end = put_name(&mut line, 0, name_at(description, place));
    text(&rt.stdout(), front_bytes(&line, end));
    values(rt, description, literals, bytes, name);
    text(&rt.stdout(), b"\n");
}

// Row k of the name table, if it belongs to an item.
fn name_of(
    rt: HostRuntime,
    description: &[u8],
    place: usize,
    name: &[u32],
    literals: &[u32],
    bytes: &[u8],
    v: usize,
) {
    if name.len() > 0 && name[0] as usize == v {
        name_line(rt, description, place, name, literals, bytes);
    }
}

// The condition-names of one item.
fn names_of(
    rt: HostRuntime,
    description: &[u8],
    names: &[u32],
    name_places: &[u32],
    literals: &[u32],
    bytes: &[u8],
    v: usize,
) {
    for (k, place) in name_places.iter().enumerate() {
        name_of(
            rt,
            description,
            *place as usize,
            names_from(names, k),
            literals,
            bytes,
            v,
        );
    }
}

// A line for each row, and those of its condition-names.
fn row_lines(
    rt: HostRuntime,
    description: &[u8],
    items: &[u32],
    places: &[u32],
    names: &[u32],
    name_places: &[u32],
    literals: &[u32],
    bytes: &[u8],
) {
    let rows = items.len() / Row::WIDTH;
    for v in 0..rows {
        row_line(rt, description, places, v, row_at(items, v));
        names_of(rt, description, names, name_places, literals, bytes, v);
    }
}

pub(crate) fn list_items(
    rt: HostRuntime,
    description: &[u8],
    items: &[u32],
    places: &[u32],
    names: &[u32],
    name_places: &[u32],
    literals: &[u32],
    bytes: &[u8],
) -> u32
    ensures { result ≤ 2 }
{
    let mut line = [0u8; LINE];
    let end = put_heading(&mut line, 0);
    text(&rt.stdout(), front_bytes(&line, end));
    row_lines(
        rt,
        description,
        items,
        places,
        names,
        name_places,
        literals,
        bytes,
    );
    0
}
