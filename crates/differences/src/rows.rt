// What one row lists.
ghost use Rattle.std.specs.Prelude.{◌≡◌, true, [], ◌∷◌, ◌+◌, ◌≤◌, length};
ghost use Rattle.std.proofs.lemmas.List.Edits.{sets};
ghost use Rattle.tables.specs.Rows.{part};
ghost use Rattle.differences.specs.Differ.{differs, mark, entry_of, Held};

use compare::orders::relation_holds;
use content::Row;
use item_parts::parts::same_bytes;
use numbers::reading::read_number;
use scaled::compare_scaled;
use tables::rows::{is_group, is_numeric, row_part};

// Whether an elementary item's bytes differ.
pub(crate) fn item_differs(row: Row, first: &[u8], second: &[u8]) -> bool
    requires { Held row first.now second.now }
    ensures { result ≡ differs row (part row first.now) (part row second.now) }
{
    let same = same_bytes(row_part(row, first), row_part(row, second));
    !is_group(row) & !same
}

// The letter V, B or I.
fn mark_of(row: Row, first: &[u8], second: &[u8]) -> u32
    requires { Held row first.now second.now }
    ensures { result ≡ mark row (part row first.now) (part row second.now) }
{
    if !is_numeric(row) {
        return 0x56;
    }
    let one = read_number(row, row_part(row, first));
    let other = read_number(row, row_part(row, second));
    if !(one.valid & other.valid) {
        return 0x49;
    }
    let order = compare_scaled(
        one.minus,
        one.digits,
        row.scale,
        other.minus,
        other.digits,
        row.scale,
    );
    if relation_holds(7, order) {
        return 0x42;
    }
    0x56
}

fn put_entry(list: &mut [u32], place: usize, row: u32, mark: u32)
    requires { place + 2 ≤ length list.old }
    ensures { list.new ≡ sets list.old place (row ∷ mark ∷ []) }
{
    list[place] = row;
    list[place + 1] = mark;
}

// Row v listed behind so many numbers, where it differs; and how many there are then.
pub(crate) fn list_row(
    row: Row,
    v: u32,
    first: &[u8],
    second: &[u8],
    list: &mut [u32],
    count: usize,
) -> usize
    requires { Held row first.now second.now × (count + length (entry_of row v (part row first.now) (part row second.now)) ≤ length list.old) }
    ensures value { result ≡ count + length (entry_of row v (part row first.now) (part row second.now)) }
    ensures list_after { list.new ≡ sets list.old count (entry_of row v (part row first.now) (part row second.now)) }
{
    if !item_differs(row, first, second) {
        return count;
    }
    put_entry(list, count, v, mark_of(row, first, second));
    count + 2
}
