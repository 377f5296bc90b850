// The rows that differ, in row order.
ghost use Rattle.std.specs.Prelude.{◌≡◌, ◌++◌, ◌≤◌, length, drop, Ok};
ghost use Rattle.tables.specs.Refusals.{first_of};
ghost use Rattle.differences.specs.Differ.{differences, end_check, differ_lines, differing};

use crate::rows::{item_differs, list_row};
use content::Row;
use items::lines::{check_items, check_room};
use tables::Refusal;
use tables::rows::{ends_within, row_at};

// 12: the first row that either record ends before.
fn check_ends(items: &[u32], first: &[u8], second: &[u8]) -> Result<(), Refusal>
    ensures { result ≡ end_check items.now first.now second.now }
{
    let rows = items.len() / Row::WIDTH;
    for v in 0..rows {
        let row = row_at(items, v);
        if !(ends_within(row, first.len()) & ends_within(row, second.len())) {
            return Err(Refusal::Record(v));
        }
    }
    Ok(())
}

// 1, 2, 12.
fn check_copies(items: &[u32], first: &[u8], second: &[u8]) -> Result<(), Refusal>
    ensures { result ≡ first_of (differ_lines items.now first.now second.now) }
{
    check_items(items)?;
    check_ends(items, first, second)
}

// How many numbers the list has.
fn count_differences(items: &[u32], first: &[u8], second: &[u8]) -> usize
    requires { first_of (differ_lines items.now first.now second.now) ≡ Ok tt }
    ensures { result ≡ length (differences items.now first.now second.now) }
{
    let rows = items.len() / Row::WIDTH;
    let mut count: usize = 0;
    for v in 0..rows {
        if item_differs(row_at(items, v), first, second) {
            count += 2;
        }
    }
    count
}

// The list, at the start of the output.
fn write_differences(items: &[u32], first: &[u8], second: &[u8], list: &mut [u32])
    requires { (first_of (differ_lines items.now first.now second.now) ≡ Ok tt) × (length (differences items.now first.now second.now) ≤ length list.old) }
    ensures { list.new ≡ differences items.now first.now second.now ++ drop (length (differences items.now first.now second.now)) list.old }
{
    let rows = items.len() / Row::WIDTH;
    let mut count: usize = 0;
    for v in 0..rows {
        count = list_row(row_at(items, v), v as u32, first, second, list, count);
    }
}

// What differs between two copies: row and mark of each elementary item, or a refusal that leaves the output as it was.
pub fn differ(
    items: &[u32],
    first: &[u8],
    second: &[u8],
    output: &mut [u32],
) -> Result<usize, Refusal>
    ensures value { result ≡ (differing items.now first.now second.now output.old).answer }
    ensures output_after { output.new ≡ (differing items.now first.now second.now output.old).output }
{
    check_copies(items, first, second)?;
    let needed = count_differences(items, first, second);
    check_room(needed, output.len())?;
    write_differences(items, first, second, output);
    Ok(needed)
}
