// A level 88 entry in lent buffers: eighteen numbers of its row, the place of its name, and seven numbers
// of each literal.
ghost use Rattle.std.specs.Prelude.{◌≡◌, ◌+◌, ◌*◌, ◌<◌, ◌≤◌, length};
ghost use Rattle.std.proofs.lemmas.List.Edits.{sets};
ghost use Rattle.noting.specs.Stored.{noted_at};
ghost use Rattle.storing.specs.Naming.{item_row, start_of, passed_by, NameStored, NameBy, NameReady};
ghost use Rattle.tables.specs.Rows.{name_width};

use crate::{NameStep, Names};
use content::Row;
use name_entries::reading::read_name;
use tables::rows::NAME_WIDTH;
use text_bytes::blanks::next_ink;
use value_notes::Tally;

// What entry i tells of its row.
fn item_row(entries: &[u32], i: usize) -> Row
    requires { i * 7 + 6 < length entries.now }
    ensures { result ≡ item_row (noted_at entries.now i) }
{
    let at = i * 7;
    Row {
        kind: entries[at + 3],
        offset: 0,
        size: entries[at + 4],
        scale: entries[at + 5],
        digits: entries[at + 6],
    }
}

fn start_of(kept: Names) -> Tally
    ensures { result ≡ start_of kept }
{
    Tally {
        over: kept.over | (64 <= kept.count),
        values: 0,
        literals: kept.literals,
        bytes: kept.bytes,
    }
}

// The entry at p passes a limit; the first such counts.
fn passed_by(kept: Names, p: usize) -> Names
    ensures { result ≡ passed_by kept p }
{
    if kept.over {
        return kept;
    }
    Names {
        over: true,
        place: p,
        count: kept.count,
        literals: kept.literals,
        bytes: kept.bytes,
    }
}

// The eighteen numbers of a row, at row i.
fn put_row(names: &mut [u32], i: usize, row: &[u32])
    requires { (i * name_width + 17 < length names.old) × (length row.now ≡ name_width) }
    ensures { names.new ≡ sets names.old (i * name_width) row.now }
{
    let at = i * NAME_WIDTH;
    for k in 0..NAME_WIDTH {
        names[at + k] = row[k];
    }
}

// The row of a name, whose pairs are in `row`, and the place of the name.
fn store_name(
    names: &mut [u32],
    places: &mut [u32],
    row: &mut [u32],
    i: usize,
    item: usize,
    values: usize,
    named: usize,
)
    requires name_width_in_bounds { (i * name_width + 17 < length names.old) × ((i < length places.old) × (length row.old ≡ name_width)) }
    requires item_bound { (item ≤ 4096) × ((values ≤ 4096) × (named ≤ 4096)) }
    ensures { NameStored i item values named names.old places.old row.old names.new places.new row.new }
{
    row[0] = item as u32;
    row[1] = values as u32;
    put_row(names, i, row);
    places[i] = named as u32;
}

// The level 88 entry at p, of the last of `count` entries; or the first faulty byte. `row` is for its pairs. What is free of it
// and of `notes` afterwards: `NotStored`.
pub fn name_step(
    text: &[u8],
    p: usize,
    entries: &[u32],
    count: usize,
    kept: Names,
    names: &mut [u32],
    places: &mut [u32],
    notes: &mut [u32],
    row: &mut [u32],
) -> Result<NameStep, usize>
    requires { NameReady text.now p entries.now count kept names.old places.old notes.old row.old }
    ensures { NameBy text.now p entries.now count kept names.old places.old notes.old result names.new places.new notes.new row.new }
{
    let last = count - 1;
    let item = item_row(entries, last);
    let read = read_name(text, p + 2, item, start_of(kept), row, notes)?;
    let t = read.tally;
    if t.over {
        return Ok(NameStep {
            names: passed_by(kept, p),
            end: read.end,
        });
    }
    let named = next_ink(text, p + 2);
    store_name(names, places, row, kept.count, last, t.values, named);
    let next = Names {
        over: false,
        place: 0,
        count: kept.count + 1,
        literals: t.literals,
        bytes: t.bytes,
    };
    Ok(NameStep {
        names: next,
        end: read.end,
    })
}
