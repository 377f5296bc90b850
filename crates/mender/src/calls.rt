// The mending of a record, row by row as they lie in it, so that the list rises.
ghost use Rattle.std.specs.Prelude.{◌≡◌, ◌++◌, ◌≤◌, length, drop, Ok};
ghost use Rattle.tables.specs.Refusals.{first_of};
ghost use Rattle.mending.specs.Mend.{mend_lines, changes, mended_record, mending};

use crate::rows::{count_row, mend_row, next_row, row_end};
use checks::lent::check_record;
use content::Row;
use items::lines::{check_items, check_room};
use overlaps::check_overlap;
use tables::Refusal;
use tables::rows::row_at;

// How many numbers the list of changes has.
fn count_mended(items: &[u32], record: &[u8]) -> usize
    requires { first_of (mend_lines items.now «record».now) ≡ Ok tt }
    ensures { result ≡ length (changes items.now «record».now) }
{
    let rows = items.len() / Row::WIDTH;
    let mut count: usize = 0;
    let mut at: usize = 0;
    let mut v = next_row(items, at);
    // Which row comes next is found by its offset.
    while v < rows {
        let row = row_at(items, v);
        count += count_row(row, record);
        at = row_end(row);
        v = next_row(items, at);
    }
    count
}

// The record mended, and the list of its changes at the start of the output; and how many numbers were listed.
fn write_mended(items: &[u32], record: &mut [u8], list: &mut [u32]) -> usize
    requires { (first_of (mend_lines items.now «record».old) ≡ Ok tt) × (length (changes items.now «record».old) ≤ length list.old) }
    ensures value { result ≡ length (changes items.now «record».old) }
    ensures list_after { list.new ≡ changes items.now «record».old ++ drop result list.old }
    ensures record_after { «record».new ≡ mended_record items.now «record».old }
{
    let rows = items.len() / Row::WIDTH;
    let mut count: usize = 0;
    let mut at: usize = 0;
    let mut v = next_row(items, at);
    // Which row comes next is found by its offset.
    while v < rows {
        let row = row_at(items, v);
        count += mend_row(row, record, &mut list[count..]);
        at = row_end(row);
        v = next_row(items, at);
    }
    count
}

// 1, 2, 19, 12.
fn check_mend(items: &[u32], record: &[u8]) -> Result<(), Refusal>
    ensures { result ≡ first_of (mend_lines items.now «record».now) }
{
    check_items(items)?;
    check_overlap(items)?;
    check_record(items, record)
}

// The mending: the record in place and the list of its changes, or a refusal that changes neither. A first walk counts, so that
// nothing is written where the list has no room.
pub fn mend(items: &[u32], record: &mut [u8], list: &mut [u32]) -> Result<usize, Refusal>
    ensures value { result ≡ (mending items.now «record».old list.old).answer }
    ensures record_after { «record».new ≡ (mending items.now «record».old list.old).content }
    ensures list_after { list.new ≡ (mending items.now «record».old list.old).list }
{
    check_mend(items, record)?;
    check_room(count_mended(items, record), list.len())?;
    Ok(write_mended(items, record, list))
}
