// The rows of the entries that were read, seven numbers each; five numbers a row.
ghost use Rattle.std.specs.Prelude.{◌≡◌, map, ◌+◌, ◌*◌, ◌-◌, ◌<◌, ◌≤◌, length};
ghost use Rattle.std.proofs.lemmas.List.Edits.{sets};
ghost use Rattle.description.specs.Grammar.{group_kind};
ghost use Rattle.layouts.specs.Layouts.{Sized, Signed, Summed, shown_row, entries_in, row_in, numbers_of, LaidOut};
ghost use Rattle.content.specs.Kinds.{row_width};

use crate::limits::is_over;
use crate::{Below, ItemRow};
use content::Row;

// How many bytes entry i takes by itself: a group, none.
fn size_at(entries: &[u32], i: usize) -> usize
    requires { i * 7 + 6 < length entries.now }
    ensures { Sized entries.now i result }
{
    let at = i * 7;
    if entries[at + 3] == Row::GROUP {
        return 0;
    }
    entries[at + 4] as usize
}

// Whether entry i is an item whose picture has an S.
fn signed_at(entries: &[u32], i: usize) -> bool
    requires { i * 7 + 6 < length entries.now }
    ensures { Signed entries.now i result }
{
    let at = i * 7;
    let kind = entries[at + 3];
    (kind == Row::SIGNED)
        | (kind == Row::SIGN_LEADING)
        | (kind == Row::SIGN_TRAILING)
        | (kind == Row::PACKED)
}

// What a group of this level has by the entries from i on.
fn sum_below(entries: &[u32], i: usize, n: usize, level: u32) -> Below
    requires { (i ≤ n) × ((n ≤ 820) × (n * 7 ≤ length entries.now)) }
    ensures { Summed entries.now i n level result.size result.signed }
{
    let mut size: usize = 0;
    let mut signed = false;
    for k in i..n {
        let l = entries[k * 7];
        if !((level < l) & (l <= 49)) {
            return Below { size, signed };
        }
        size += size_at(entries, k);
        signed = signed | signed_at(entries, k);
    }
    Below { size, signed }
}

// Kind 7 is a group with no signed item at any depth.
fn group_kind(signed: bool) -> u32
    ensures { result ≡ group_kind signed }
{
    if signed {
        return Row::GROUP;
    }
    Row::UNSIGNED_GROUP
}

// The row of entry i at an offset.
fn row_of(entries: &[u32], i: usize, n: usize, offset: usize) -> ItemRow
    requires { (i < n) × ((n ≤ 820) × (n * 7 ≤ length entries.now)) }
    ensures { shown_row result ≡ row_in entries.now i n offset }
{
    let at = i * 7;
    let kind = entries[at + 3];
    if kind == Row::GROUP {
        let level = entries[at];
        let below = sum_below(entries, i + 1, n, level);
        return ItemRow {
            kind: group_kind(below.signed),
            offset,
            size: below.size,
            scale: 0,
            digits: 0,
        };
    }
    ItemRow {
        kind,
        offset,
        size: entries[at + 4] as usize,
        scale: entries[at + 5],
        digits: entries[at + 6],
    }
}

fn store_row(rows: &mut [u32], i: usize, row: ItemRow)
    requires { (i * row_width + 4 < length rows.old) × ((row.offset ≤ 65535) × (row.size ≤ 65535)) }
    ensures { rows.new ≡ sets rows.old (i * row_width) (numbers_of (shown_row row)) }
{
    let at = i * Row::WIDTH;
    rows[at] = row.kind;
    rows[at + 1] = row.offset as u32;
    rows[at + 2] = row.size as u32;
    rows[at + 3] = row.scale;
    rows[at + 4] = row.digits;
}

// The rows of n entries, up to the first that passes a limit, whose place is the answer; beyond them `rows` stays
// as it was.
pub fn lay_rows(entries: &[u32], n: usize, rows: &mut [u32]) -> Option<usize>
    requires { (n ≤ 820) × ((n * 7 ≤ length entries.now) × (320 ≤ length rows.old)) }
    ensures { LaidOut entries.now n result rows.old rows.new }
{
    let mut offset: usize = 0;
    for i in 0..n {
        let row = row_of(entries, i, n, offset);
        if is_over(i, row) {
            let at = i * 7;
            return Some(entries[at + 1] as usize);
        }
        store_row(rows, i, row);
        offset += size_at(entries, i);
    }
    None
}
