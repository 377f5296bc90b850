// 19: elementary items that share a byte.
#![tactic(auto)]

ghost use Rattle.std.specs.Prelude.{◌≡◌, true, ◌*◌, ◌+◌, ◌<◌, length, Ok};
ghost use Rattle.items.specs.Items.{apart, clear_at};
ghost use Rattle.items.specs.Lines.{overlap_check};
ghost use Rattle.content.specs.Kinds.{row_width};

use content::Row;
use tables::Refusal;
use tables::rows::{ends_within, is_group, row_at};

// Whether two rows share no byte.
fn share_none(r: Row, s: Row) -> bool
    ensures { result ≡ apart r s }
{
    ends_within(r, s.offset as usize) | ends_within(s, r.offset as usize)
}

// Whether row v is a group's, or shares no byte with an elementary row before it.
fn is_clear(items: &[u32], v: usize) -> bool
    requires { v * row_width + 4 < length items.now }
    ensures { result ≡ clear_at items.now v }
{
    let row = row_at(items, v);
    if is_group(row) {
        return true;
    }
    let mut clear = true;
    for u in 0..v {
        let other = row_at(items, u);
        clear = clear & (is_group(other) | share_none(other, row));
    }
    clear
}

// The first elementary row that shares a byte with an earlier one, each tried against all before it.
fn first_overlap(items: &[u32]) -> Result<(), Refusal>
    ensures { result ≡ overlap_check items.now }
{
    let rows = items.len() / Row::WIDTH;
    for v in 0..rows {
        if !is_clear(items, v) {
            return Err(Refusal::Overlap(v));
        }
    }
    Ok(())
}

// Whether each elementary row starts where the one before it ends, or later: so rows of a description lie, and one pass tells that none
// of them overlap.
fn lie_in_turn(items: &[u32]) -> bool
    ensures { result ≡ true → overlap_check items.now ≡ Ok tt }
{
    let rows = items.len() / Row::WIDTH;
    let mut in_turn = true;
    let mut end: usize = 0;
    for v in 0..rows {
        let row = row_at(items, v);
        if !is_group(row) {
            let offset = row.offset as usize;
            in_turn = in_turn & (end <= offset);
            end = offset + row.size as usize;
        }
    }
    in_turn
}

// 19: the first elementary row that shares a byte with an earlier one.
pub fn check_overlap(items: &[u32]) -> Result<(), Refusal>
    ensures { result ≡ overlap_check items.now }
{
    if lie_in_turn(items) {
        return Ok(());
    }
    first_overlap(items)
}
