// The rows that were marked, in an output: their count, or 10.
ghost use Rattle.std.specs.Prelude.{[], ◌≤◌};
ghost use Rattle.tables.specs.Operands.{lend_names};
ghost use Rattle.tables.specs.Rows.{row_count};
ghost use Rattle.values.specs.Truth.{outcome};
ghost use Rattle.grammar.specs.Plan.{plan_rows, run_visits};
ghost use Rattle.items.specs.Items.{listed as in_turn};
ghost use Rattle.rules.specs.Calls.{Leaves};
ghost use Rattle.rules.specs.Footprint.{footprint};
ghost use Rattle.runner.specs.Runs.{Runnable};
ghost use Rattle.walker.specs.Marks.{lent_names, AllMarkable, rows_at};
ghost use Rattle.look_lists.specs.Looked.{rising, listing};

use content::Row;
use tables::Refusal;
use walker::marks::give_marked;
use walks::{mark_named, mark_reached};

// The items of the rows that a run comes to.
pub fn list_reached<'a>(
    items: &[u32],
    literals: &[u32],
    bytes: &'a [u8],
    names: &[u32],
    plan: &[u32],
    record: &'a [u8],
    switches: u8,
    rows: &mut [u32],
) -> Result<usize, Refusal>
    requires { Runnable (lend_names items.now literals.now bytes.now names.now) plan.now «record».now }
    ensures { Leaves (listing [] (rising items.now (footprint (lend_names items.now literals.now bytes.now names.now) (run_visits (outcome (lend_names items.now literals.now bytes.now names.now) «record».now switches) plan.now))) rows.old) result rows.new }
{
    let mut marks = [0u32; 64];
    mark_reached(
        items, literals, bytes, names, plan, record, switches, &mut marks,
    );
    give_marked(&marks, items.len() / Row::WIDTH, rows)
}

// The items of every row of a plan.
pub fn list_named(
    items: &[u32],
    names: &[u32],
    plan: &[u32],
    rows: &mut [u32],
) -> Result<usize, Refusal>
    requires { (row_count items.now ≤ 64) × AllMarkable names.now 64 plan.now }
    ensures { Leaves (listing [] (rising items.now (in_turn (rows_at (lent_names names.now) plan.now) (plan_rows plan.now))) rows.old) result rows.new }
{
    let mut marks = [0u32; 64];
    mark_named(names, plan, &mut marks);
    give_marked(&marks, items.len() / Row::WIDTH, rows)
}
