// merge: two members' copies of a record with the one that both began from.
ghost use Rattle.std.specs.Prelude.{◌≡◌, ◌≤◌, ◌⊎◌, length};
ghost use Rattle.tables.specs.Operands.{lend_names};
ghost use Rattle.logbook_program.specs.Ruled.{merge_status, Merges};

use crate::changes::{change, part};
use crate::files::{is_free, large, load, save};
use crate::judge_record::refused;
use crate::print::text;
use crate::refusals::of_record;
use change_lines::changes::put_merged;
use conditions::calls::run;
use console::arguments::argument;
use content::Row;
use fronts::{front, front_bytes};
use item_parts::parts::same_bytes;
use merger::calls::merge;
use tables::Verdict;
use tables::rows::{is_group, row_at};

const ROWS: usize = 64;

// A file's name and what is said around it.
const LINE: usize = 4224;

// Whether a row is in the list.
fn is_listed(list: &[u32], v: usize) -> bool {
    list.iter().any(|row| *row as usize == v)
}

// An item that both changed, and not alike: what the rule gave it.
fn apart(
    rt: HostRuntime,
    description: &[u8],
    places: &[u32],
    v: usize,
    old: &[u8],
    first: &[u8],
    second: &[u8],
    merged: &[u8],
) {
    if same_bytes(merged, first) {
        return change(
            rt,
            description,
            places,
            v,
            b"first, by the rule",
            old,
            merged,
        );
    }
    if same_bytes(merged, second) {
        return change(
            rt,
            description,
            places,
            v,
            b"second, by the rule",
            old,
            merged,
        );
    }
}

// Both copies of an item that the rule could not decide.
fn contested(
    rt: HostRuntime,
    description: &[u8],
    places: &[u32],
    v: usize,
    old: &[u8],
    first: &[u8],
    second: &[u8],
) {
    change(rt, description, places, v, b"contested, first", old, first);
    change(
        rt,
        description,
        places,
        v,
        b"contested, second",
        old,
        second,
    );
}

// From whom an item's bytes were taken; nothing where nobody changed it.
fn item_line(
    rt: HostRuntime,
    description: &[u8],
    places: &[u32],
    v: usize,
    is_contested: bool,
    old: &[u8],
    first: &[u8],
    second: &[u8],
    merged: &[u8],
) {
    if is_contested {
        return contested(rt, description, places, v, old, first, second);
    }
    if same_bytes(first, second) {
        if !same_bytes(first, old) {
            change(rt, description, places, v, b"both", old, merged);
        }
        return;
    }
    if same_bytes(second, old) {
        return change(rt, description, places, v, b"first", old, merged);
    }
    if same_bytes(first, old) {
        return change(rt, description, places, v, b"second", old, merged);
    }
    apart(rt, description, places, v, old, first, second, merged)
}

// One row of the listing.
fn row_line(
    rt: HostRuntime,
    description: &[u8],
    places: &[u32],
    v: usize,
    row: Row,
    is_contested: bool,
    old: &[u8],
    first: &[u8],
    second: &[u8],
    merged: &[u8],
) {
    if is_group(row) {
        return;
    }
    item_line(
        rt,
        description,
        places,
        v,
        is_contested,
        part(row, old),
        part(row, first),
        part(row, second),
        part(row, merged),
    )
}

// What was taken from whom, item by item.
fn listing(
    rt: HostRuntime,
    description: &[u8],
    items: &[u32],
    places: &[u32],
    list: &[u32],
    old: &[u8],
    first: &[u8],
    second: &[u8],
    merged: &[u8],
) {
    let rows = items.len() / Row::WIDTH;
    for v in 0..rows {
        let row = row_at(items, v);
        row_line(
            rt,
            description,
            places,
            v,
            row,
            is_listed(list, v),
            old,
            first,
            second,
            merged,
        );
    }
}

// Why the rule could not decide.
fn reason<'a>(
    rt: HostRuntime,
    description: &[u8],
    items: &[u32],
    places: &[u32],
    names: &[u32],
    literals: &[u32],
    bytes: &'a [u8],
    plan: &[u32],
    first: &'a [u8],
    switches: u8,
) {
    let judged = run(items, literals, bytes, names, plan, first, switches);
    let verdict = judged.verdict;
    if let Verdict::Refused(refusal) = verdict {
        refused(
            rt,
            description,
            items,
            places,
            literals,
            bytes,
            plan,
            first,
            refusal,
        );
    }
}

fn merged_line(rt: HostRuntime, file: &[u8], contested: usize) {
    let mut line = [0u8; LINE];
    let end = put_merged(&mut line, 0, file, contested);
    text(&rt.stdout(), front_bytes(&line, end));
}

// The last line, and the status: 1 where something is contested.
fn outcome(rt: HostRuntime, merged: &[u8], contested: usize) -> u32
    ensures { (result ≡ 2) ⊎ (result ≡ merge_status contested) }
{
    if !save(rt, 7, merged) {
        return 2;
    }
    let mut name = [0u8; 4096];
    let n = argument(&rt, 7, &mut name);
    merged_line(rt, front_bytes(&name, n), contested);
    if contested == 0 {
        return 0;
    }
    1
}

// The listing, why the rule could not decide where it did not, and the new file. What is saved is what the rules merge.
fn told<'a>(
    rt: HostRuntime,
    description: &[u8],
    items: &[u32],
    places: &[u32],
    names: &[u32],
    literals: &[u32],
    bytes: &'a [u8],
    plan: &[u32],
    old: &[u8],
    first: &'a [u8],
    second: &[u8],
    switches: u8,
    merged: &[u8],
    list: &[u32],
) -> u32
    requires { Merges (lend_names items.now literals.now bytes.now names.now) plan.now switches old.now first.now second.now merged.now list.now }
    ensures { (result ≡ 2) ⊎ (result ≡ merge_status (length list.now)) }
{
    listing(
        rt,
        description,
        items,
        places,
        list,
        old,
        first,
        second,
        merged,
    );
    if list.len() > 0 {
        reason(
            rt,
            description,
            items,
            places,
            names,
            literals,
            bytes,
            plan,
            first,
            switches,
        );
    }
    outcome(rt, merged, list.len())
}

fn merge_loaded<'a>(
    rt: HostRuntime,
    description: &[u8],
    items: &[u32],
    places: &[u32],
    names: &[u32],
    literals: &[u32],
    bytes: &'a [u8],
    plan: &[u32],
    old: &'a [u8],
    first: &'a [u8],
    second: &'a [u8],
    switches: u8,
) -> u32
    ensures { result ≤ 2 }
{
    let mut merged = large();
    let mut list = [0u32; ROWS];
    let answer = merge(
        items,
        literals,
        bytes,
        names,
        plan,
        old,
        first,
        second,
        switches,
        &mut merged,
        &mut list,
    );
    match answer {
        Err(refusal) => {
            of_record(rt, refusal, description, places);
            2
        }
        Ok(written) => told(
            rt,
            description,
            items,
            places,
            names,
            literals,
            bytes,
            plan,
            old,
            first,
            second,
            switches,
            front_bytes(&merged, written.bytes),
            front(&list, written.rows),
        ),
    }
}

fn with_second<'a>(
    rt: HostRuntime,
    description: &[u8],
    items: &[u32],
    places: &[u32],
    names: &[u32],
    literals: &[u32],
    bytes: &'a [u8],
    plan: &[u32],
    old: &'a [u8],
    first: &'a [u8],
    switches: u8,
) -> u32
    ensures { result ≤ 2 }
{
    let mut second = large();
    match load(rt, 6, &mut second) {
        None => 2,
        Some(n) => merge_loaded(
            rt,
            description,
            items,
            places,
            names,
            literals,
            bytes,
            plan,
            old,
            first,
            front_bytes(&second, n),
            switches,
        ),
    }
}

fn with_first<'a>(
    rt: HostRuntime,
    description: &[u8],
    items: &[u32],
    places: &[u32],
    names: &[u32],
    literals: &[u32],
    bytes: &'a [u8],
    plan: &[u32],
    old: &'a [u8],
    switches: u8,
) -> u32
    ensures { result ≤ 2 }
{
    let mut first = large();
    match load(rt, 5, &mut first) {
        None => 2,
        Some(n) => with_second(
            rt,
            description,
            items,
            places,
            names,
            literals,
            bytes,
            plan,
            old,
            front_bytes(&first, n),
            switches,
        ),
    }
}

pub(crate) fn merge_copies(
    rt: HostRuntime,
    description: &[u8],
    items: &[u32],
    places: &[u32],
    names: &[u32],
    literals: &[u32],
    bytes: &[u8],
    plan: &[u32],
    switches: u8,
) -> u32
    ensures { result ≤ 2 }
{
    if !is_free(rt, 7) {
        return 2;
    }
    let mut old = large();
    match load(rt, 4, &mut old) {
        None => 2,
        Some(n) => with_first(
            rt,
            description,
            items,
            places,
            names,
            literals,
            bytes,
            plan,
            front_bytes(&old, n),
            switches,
        ),
    }
}
