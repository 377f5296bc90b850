// mend: blank digits and signs mended, the record in a new file.
ghost use Rattle.std.specs.Prelude.{◌≡◌, ◌≤◌, length};
ghost use Rattle.logbook_program.specs.Ruled.{Mends};

use crate::changes::{change, part};
use crate::files::{is_free, large, load, save};
use crate::print::{argument, text};
use crate::refusals::of_record;
use content::Row;
use fronts::front_bytes;
use item_parts::parts::same_bytes;
use mender::calls::mend;
use tables::rows::{is_group, row_at};

// Three numbers for each of at most 19 bytes of at most 64 items.
const CHANGES: usize = 3648;

fn row_line(
    rt: HostRuntime,
    description: &[u8],
    places: &[u32],
    v: usize,
    row: Row,
    old: &[u8],
    new: &[u8],
) {
    if is_group(row) || same_bytes(part(row, old), part(row, new)) {
        return;
    }
    change(
        rt,
        description,
        places,
        v,
        b"mended",
        part(row, old),
        part(row, new),
    )
}

fn listing(
    rt: HostRuntime,
    description: &[u8],
    items: &[u32],
    places: &[u32],
    old: &[u8],
    new: &[u8],
) {
    let rows = items.len() / Row::WIDTH;
    for v in 0..rows {
        row_line(rt, description, places, v, row_at(items, v), old, new);
    }
}

fn outcome(rt: HostRuntime, mended: &[u8]) -> u32
    ensures { result ≤ 2 }
{
    if !save(rt, 4, mended) {
        return 2;
    }
    text(&rt.stdout(), b"mended to ");
    argument(rt, &rt.stdout(), 4);
    text(&rt.stdout(), b"\n");
    0
}

// The listing, and the new file. What is saved is the record mended by the rules.
fn told(
    rt: HostRuntime,
    description: &[u8],
    items: &[u32],
    places: &[u32],
    old: &[u8],
    new: &[u8],
) -> u32
    requires { Mends items.now old.now new.now }
    ensures { result ≤ 2 }
{
    listing(rt, description, items, places, old, new);
    outcome(rt, new)
}

fn mend_part(
    rt: HostRuntime,
    description: &[u8],
    items: &[u32],
    places: &[u32],
    old: &[u8],
    record: &mut [u8],
) -> u32
    requires { «record».old ≡ old.now }
    ensures { result ≤ 2 }
{
    let mut list = [0u32; CHANGES];
    let written = mend(items, record, &mut list);
    match written {
        Ok(_) => told(rt, description, items, places, old, record),
        Err(refusal) => {
            of_record(rt, refusal, description, places);
            2
        }
    }
}

// The record twice: as it was, and to be mended.
fn mend_copy(rt: HostRuntime, description: &[u8], items: &[u32], places: &[u32], old: &[u8]) -> u32
    requires { length old.now ≤ 131072 }
    ensures { result ≤ 2 }
{
    let mut record = large();
    let n = lines::text::put(&mut record, 0, old);
    if n <= record.len() {
        return mend_part(rt, description, items, places, old, &mut record[..n]);
    }
    2
}

pub(crate) fn mend_record(rt: HostRuntime, description: &[u8], items: &[u32], places: &[u32]) -> u32
    ensures { result ≤ 2 }
{
    if !is_free(rt, 4) {
        return 2;
    }
    let mut old = large();
    match load(rt, 3, &mut old) {
        None => 2,
        Some(n) => mend_copy(rt, description, items, places, front_bytes(&old, n)),
    }
}
