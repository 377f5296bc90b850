// The call that users make: three copies of a record merged by a rule.
ghost use Rattle.std.specs.Prelude.{◌≡◌, [], ◌++◌, ◌≤◌, length, drop};
ghost use Rattle.tables.specs.Operands.{lend_names};
ghost use Rattle.tables.specs.Refusals.{first_of};
ghost use Rattle.merging.specs.Merge.{copies_of, length_check, apart_rows, contested, desk_lines, merge_with, merge_gives};
ghost use Rattle.copies.specs.Ready.{Ready};
ghost use Rattle.merger.specs.Desk.{contested_count, Decides, rooms_for, Leaves};

use checks::lent::check_record;
use conditions::calls::run;
use contested::apart::{count_apart, list_apart};
use copies::write_merged;
use items::lines::check_room;
use merging::Merged;
use overlaps::check_overlap;
use plan_checks::check_plan;
use preparer::lent::check_lent;
use tables::{Refusal, Verdict};

// 20: copies of unequal length.
fn check_lengths(old: &[u8], first: &[u8], second: &[u8]) -> Result<(), Refusal>
    ensures { result ≡ length_check old.now first.now second.now }
{
    if (first.len() == old.len()) & (second.len() == old.len()) {
        return Ok(());
    }
    Err(Refusal::Lengths)
}

// 1 to 4, 18, 19, 20, 11, 12, in this order.
fn check_desk(
    items: &[u32],
    literals: &[u32],
    bytes: &[u8],
    names: &[u32],
    plan: &[u32],
    old: &[u8],
    first: &[u8],
    second: &[u8],
) -> Result<(), Refusal>
    ensures { result ≡ first_of (desk_lines (lend_names items.now literals.now bytes.now names.now) plan.now old.now first.now second.now) }
{
    check_lent(items, literals, bytes, names)?;
    check_overlap(items)?;
    check_lengths(old, first, second)?;
    check_plan(false, items, literals, names, plan)?;
    check_record(items, old)
}

// How many rows are contested: those changed apart, where the run stops.
fn contested_count(verdict: Verdict, apart: usize) -> usize
    ensures { result ≡ contested_count verdict apart }
{
    match verdict {
        Verdict::True => 0,
        Verdict::False => 0,
        Verdict::Refused(_) => apart,
    }
}

// What the rule decides: it is run once, on the first copy, and only if some item was changed apart.
fn decide<'a>(
    items: &[u32],
    literals: &[u32],
    bytes: &'a [u8],
    names: &[u32],
    plan: &[u32],
    first: &'a [u8],
    switches: u8,
    apart: usize,
) -> Verdict
    ensures { Decides (lend_names items.now literals.now bytes.now names.now) plan.now first.now switches apart result }
{
    if apart == 0 {
        return Verdict::False;
    }
    let judged = run(items, literals, bytes, names, plan, first, switches);
    judged.verdict
}

// The contested rows, at the start of the output.
fn write_contested(
    items: &[u32],
    old: &[u8],
    first: &[u8],
    second: &[u8],
    verdict: Verdict,
    list: &mut [u32],
)
    requires { Ready (copies_of items.now old.now first.now second.now) (length old.now) × (length items.now ≤ 320) × (length (contested (copies_of items.now old.now first.now second.now) verdict) ≤ length list.old) }
    ensures { list.new ≡ contested (copies_of items.now old.now first.now second.now) verdict ++ drop (length (contested (copies_of items.now old.now first.now second.now) verdict)) list.old }
{
    match verdict {
        Verdict::True => {}
        Verdict::False => {}
        Verdict::Refused(_) => list_apart(items, old, first, second, list),
    }
}

// 10: room for the record, then for the contested rows.
fn check_rooms(bytes: usize, rows: usize, merged: usize, contested: usize) -> Result<(), Refusal>
    ensures { result ≡ first_of (rooms_for bytes rows merged contested) }
{
    check_room(bytes, merged)?;
    check_room(rows, contested)
}

// Both outputs, where nothing but their room can refuse.
fn merge_decided<'a>(
    items: &[u32],
    old: &'a [u8],
    first: &'a [u8],
    second: &'a [u8],
    verdict: Verdict,
    apart: usize,
    merged: &mut [u8],
    contested: &mut [u32],
) -> Result<Merged, Refusal>
    requires { Ready (copies_of items.now old.now first.now second.now) (length old.now) × (length items.now ≤ 320) × (apart ≡ length (apart_rows (copies_of items.now old.now first.now second.now))) }
    ensures { Leaves (merge_with [] (copies_of items.now old.now first.now second.now) verdict merged.old contested.old) result merged.new contested.new }
{
    let rows = contested_count(verdict, apart);
    let bytes = old.len();
    let room = check_rooms(bytes, rows, merged.len(), contested.len());
    if let Err(refusal) = room {
        return Err(refusal);
    }
    write_merged(items, old, first, second, verdict, &mut merged[..bytes]);
    write_contested(items, old, first, second, verdict, contested);
    Ok(Merged { bytes, rows })
}

// The merge of three copies of a record: the one that two members began from, a first and a second. What both changed, and not
// alike, goes by the rule; where the rule stops, the item keeps its old bytes and its row is listed. A refusal changes neither output.
pub fn merge<'a>(
    items: &[u32],
    literals: &[u32],
    bytes: &'a [u8],
    names: &[u32],
    plan: &[u32],
    old: &'a [u8],
    first: &'a [u8],
    second: &'a [u8],
    switches: u8,
    merged: &mut [u8],
    contested: &mut [u32],
) -> Result<Merged, Refusal>
    ensures { Leaves (merge_gives (lend_names items.now literals.now bytes.now names.now) plan.now switches old.now first.now second.now merged.old contested.old) result merged.new contested.new }
{
    let desk = check_desk(items, literals, bytes, names, plan, old, first, second);
    if let Err(refusal) = desk {
        return Err(refusal);
    }
    let apart = count_apart(items, old, first, second);
    let verdict = decide(items, literals, bytes, names, plan, first, switches, apart);
    merge_decided(items, old, first, second, verdict, apart, merged, contested)
}
