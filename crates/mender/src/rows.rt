// One row of a record mended, and the elementary row that starts next.
ghost use Rattle.std.specs.Prelude.{◌≡◌, ◌++◌, ◌&&◌, ℕ, ◌+◌, ◌≤◌, ◌<◌, leb, ltb, length, drop};
ghost use Rattle.tables.specs.Rows.{row_at, row_count};
ghost use Rattle.items.specs.Items.{is_elementary, replaced};
ghost use Rattle.mender.specs.Walks.{Next, Lying, mended_part, row_changes};

use change_lists::counting::count_changes;
use change_lists::listing::list_changes;
use content::Row;
use content::rows::is_zoned;
use item_parts::parts::put_part;
use meters::kinds::mended_into;
use tables::rows::{is_group, row_at, row_part};

// Whether a row is elementary and starts from one offset on, before another.
fn starts_between(row: Row, from: usize, before: usize) -> bool
    ensures { result ≡ (is_elementary row && leb from row.offset && ltb row.offset before) }
{
    let offset = row.offset as usize;
    !is_group(row) & (from <= offset) & (offset < before)
}

// The elementary row that starts next.
pub(crate) fn next_row(items: &[u32], at: usize) -> usize
    requires { (v : ℕ) → v < row_count items.now → (row_at items.now v).offset ≤ 65535 }
    ensures { Next items.now at result }
{
    let rows = items.len() / Row::WIDTH;
    let mut best = rows;
    let mut nearest: usize = 65536;
    for v in 0..rows {
        let row = row_at(items, v);
        if starts_between(row, at, nearest) {
            best = v;
            nearest = row.offset as usize;
        }
    }
    best
}

pub(crate) fn row_end(row: Row) -> usize
    ensures { result ≡ row.offset + row.size }
{
    row.offset as usize + row.size as usize
}

// How many numbers the mending of a row adds to the list.
pub(crate) fn count_row(row: Row, record: &[u8]) -> usize
    requires { Lying row «record».now }
    ensures { result ≡ length (row_changes row «record».now) }
{
    if !is_zoned(row) {
        return 0;
    }
    let item = row_part(row, record);
    let size = item.len();
    let mut mended = [0u8; 19];
    mended_into(row, item, &mut mended[..size]);
    count_changes(item, &mended[..size], row.offset as usize)
}

// One row mended: its changes at the start of the list, and its part of the record; and how many numbers were listed.
pub(crate) fn mend_row(row: Row, record: &mut [u8], list: &mut [u32]) -> usize
    requires { Lying row «record».old × (length (row_changes row «record».old) ≤ length list.old) }
    ensures value { result ≡ length (row_changes row «record».old) }
    ensures list_after { list.new ≡ row_changes row «record».old ++ drop result list.old }
    ensures record_after { «record».new ≡ replaced row (mended_part row «record».old) «record».old }
{
    if !is_zoned(row) {
        return 0;
    }
    let size = row.size as usize;
    let mut mended = [0u8; 19];
    mended_into(row, row_part(row, record), &mut mended[..size]);
    let count = list_changes(row_part(row, record), &mended[..size], row.offset, list);
    put_part(row, &mended[..size], record);
    count
}
