// What the items of three copies become: of the one that two members began from, a first and a second.
#![tactic(auto)]

ghost use Rattle.std.specs.Prelude.{◌≡◌, cond, ◌+◌, ◌≤◌, length};
ghost use Rattle.tables.specs.Rows.{part};
ghost use Rattle.items.specs.Items.{is_elementary, replaced};
ghost use Rattle.merging.specs.Merge.{copies_of, merged_item, merged_record};
ghost use Rattle.copies.specs.Ready.{Ready};

use content::Row;
use item_parts::parts::{copy_bytes, put_part, same_bytes};
use tables::Verdict;
use tables::rows::{is_group, row_at, row_part};

// What an item becomes: one of its three contents.
fn merged_item<'a>(old: &'a [u8], first: &'a [u8], second: &'a [u8], verdict: Verdict) -> &'a [u8]
    ensures { result.now ≡ merged_item verdict old.now first.now second.now }
{
    if same_bytes(first, old) {
        return second;
    }
    if same_bytes(second, old) {
        return first;
    }
    if same_bytes(first, second) {
        return first;
    }
    match verdict {
        Verdict::True => first,
        Verdict::False => second,
        Verdict::Refused(_) => old,
    }
}

// One row of the merge: a group's part is left to its members.
fn merge_row<'a>(
    row: Row,
    old: &'a [u8],
    first: &'a [u8],
    second: &'a [u8],
    verdict: Verdict,
    out: &mut [u8],
)
    requires { (row.offset + row.size ≤ length old.now) × (length first.now ≡ length old.now) × (length second.now ≡ length old.now) × (length out.old ≡ length old.now) }
    ensures { out.new ≡ cond (is_elementary row) (replaced row (merged_item verdict (part row old.now) (part row first.now) (part row second.now)) out.old) out.old }
{
    if is_group(row) {
        return;
    }
    let item = merged_item(
        row_part(row, old),
        row_part(row, first),
        row_part(row, second),
        verdict,
    );
    put_part(row, item, out);
}

// The merged record.
pub fn write_merged<'a>(
    items: &[u32],
    old: &'a [u8],
    first: &'a [u8],
    second: &'a [u8],
    verdict: Verdict,
    out: &mut [u8],
)
    requires { Ready (copies_of items.now old.now first.now second.now) (length out.old) }
    ensures { out.new ≡ merged_record (copies_of items.now old.now first.now second.now) verdict }
{
    copy_bytes(old, out);
    let rows = items.len() / Row::WIDTH;
    for v in 0..rows {
        merge_row(row_at(items, v), old, first, second, verdict, out);
    }
}
