// What both copies changed, and not alike: counted and listed.
ghost use Rattle.std.specs.Prelude.{◌≡◌, ◌&&◌, ◌++◌, ◌+◌, ◌≤◌, length, drop};
ghost use Rattle.tables.specs.Rows.{part};
ghost use Rattle.items.specs.Items.{is_elementary};
ghost use Rattle.merging.specs.Merge.{copies_of, changed_apart, apart_rows};
ghost use Rattle.copies.specs.Ready.{Ready};

use content::Row;
use item_parts::parts::same_bytes;
use tables::rows::{is_group, row_at, row_part};

// Whether an item was changed apart.
fn is_apart(row: Row, old: &[u8], first: &[u8], second: &[u8]) -> bool
    requires { (row.offset + row.size ≤ length old.now) × (length first.now ≡ length old.now) × (length second.now ≡ length old.now) }
    ensures { result ≡ (is_elementary row && changed_apart (part row old.now) (part row first.now) (part row second.now)) }
{
    if is_group(row) {
        return false;
    }
    let was = row_part(row, old);
    let one = row_part(row, first);
    let other = row_part(row, second);
    !same_bytes(one, was) & !same_bytes(other, was) & !same_bytes(one, other)
}

// How many items were changed apart.
pub fn count_apart(items: &[u32], old: &[u8], first: &[u8], second: &[u8]) -> usize
    requires { Ready (copies_of items.now old.now first.now second.now) (length old.now) }
    ensures { result ≡ length (apart_rows (copies_of items.now old.now first.now second.now)) }
{
    let rows = items.len() / Row::WIDTH;
    let mut count: usize = 0;
    for v in 0..rows {
        if is_apart(row_at(items, v), old, first, second) {
            count += 1;
        }
    }
    count
}

// The rows of the items that were changed apart, at the start of the output.
pub fn list_apart(items: &[u32], old: &[u8], first: &[u8], second: &[u8], list: &mut [u32])
    requires { Ready (copies_of items.now old.now first.now second.now) (length old.now) × (length items.now ≤ 320) × (length (apart_rows (copies_of items.now old.now first.now second.now)) ≤ length list.old) }
    ensures { list.new ≡ apart_rows (copies_of items.now old.now first.now second.now) ++ drop (length (apart_rows (copies_of items.now old.now first.now second.now))) list.old }
{
    let rows = items.len() / Row::WIDTH;
    let mut count: usize = 0;
    for v in 0..rows {
        if is_apart(row_at(items, v), old, first, second) {
            list[count] = v as u32;
            count += 1;
        }
    }
}
