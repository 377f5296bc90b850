// The call that users make.
ghost use Rattle.std.specs.Prelude.{◌≡◌, ◌≤◌, min, length};
ghost use Rattle.describing.specs.Calls.{ReadsWithin, SoonerBy, DescribedBy};
ghost use Rattle.descriptions.specs.Parses.{Parses};

use crate::Parsed;
use content::Row;
use describer::reading::read_entries;
use describing::Described;
use describing::giving::give;
use layouts::rows::lay_rows;
use storing::{Found, Names};
use tables::rows::{NAME_TABLE, NAME_WIDTH};

// How much of a text may be a description.
fn readable(n: usize) -> usize
    ensures { result ≡ min n 4096 }
{
    if 4096 < n { 4096 } else { n }
}

// The entries of a text: byte 4,096 is faulty.
fn read_within(
    text: &[u8],
    entries: &mut [u32],
    named: &mut [u32],
    spots: &mut [u32],
    notes: &mut [u32],
) -> Found
    requires { (5747 ≤ length entries.old) × ((1152 ≤ length named.old) × ((64 ≤ length spots.old) × (448 ≤ length notes.old))) }
    ensures { ReadsWithin text.now entries.new named.new spots.new notes.new result }
{
    let mut stack = [0u32; 821];
    let mut row = [0u32; NAME_WIDTH];
    let end = readable(text.len());
    let found = read_entries(
        &text[..end],
        entries,
        &mut stack,
        named,
        spots,
        notes,
        &mut row,
    );
    let names = found.names;
    if found.whole & (end < text.len()) {
        return Found {
            count: found.count,
            whole: false,
            place: 4096,
            names,
        };
    }
    found
}

// The smallest place over a limit, of items and of names.
fn sooner_of(laid: Option<usize>, names: Names) -> Option<usize>
    ensures { SoonerBy laid names result }
{
    if !names.over {
        return laid;
    }
    match laid {
        Some(p) => {
            if p <= names.place {
                return Some(p);
            }
            Some(names.place)
        }
        None => Some(names.place),
    }
}

// The entries of a text in lent buffers, and their rows.
fn parse(
    text: &[u8],
    entries: &mut [u32],
    named: &mut [u32],
    spots: &mut [u32],
    notes: &mut [u32],
    rows: &mut [u32],
) -> Parsed
    requires in_bounds { (5747 ≤ length entries.old) × ((1152 ≤ length named.old) × ((64 ≤ length spots.old) × (448 ≤ length notes.old))) }
    requires in_bounds_2 { 320 ≤ length rows.old }
    ensures { Parses text.now entries.new named.new spots.new notes.new rows.old rows.new result }
{
    let found = read_within(text, entries, named, spots, notes);
    let kept = found.names;
    let laid = sooner_of(lay_rows(entries, found.count, rows), kept);
    Parsed { found, laid }
}

// Reads a record description into item rows, five numbers each, and the place of each row's name or
// FILLER; and its level 88 entries into name rows, 18 numbers each, the place of each name, literal rows
// and literal bytes. A refusal changes no output.
pub fn describe(
    text: &[u8],
    rows: &mut [u32],
    places: &mut [u32],
    names: &mut [u32],
    name_places: &mut [u32],
    literals: &mut [u32],
    bytes: &mut [u8],
) -> Described
    ensures { DescribedBy text.now rows.old places.old names.old name_places.old literals.old bytes.old result rows.new places.new names.new name_places.new literals.new bytes.new }
{
    let mut entries = [0u32; 5747];
    let mut named = [0u32; NAME_TABLE];
    let mut spots = [0u32; 64];
    let mut notes = [0u32; 448];
    let mut laid = [0u32; Row::TABLE];
    let parsed = parse(
        text,
        &mut entries,
        &mut named,
        &mut spots,
        &mut notes,
        &mut laid,
    );
    let found = parsed.found;
    let over = parsed.laid;
    match over {
        Some(p) => Described::Faulty(p),
        None => {
            if !found.whole {
                return Described::Faulty(found.place);
            }
            give(
                text,
                &laid,
                &entries,
                &named,
                &spots,
                &notes,
                found,
                rows,
                places,
                names,
                name_places,
                literals,
                bytes,
            )
        }
    }
}
