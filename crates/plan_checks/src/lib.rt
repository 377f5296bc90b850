// Rows of a plan that was lent: their soundness (refusal 11).
#![tactic(auto)]

ghost use Rattle.std.specs.Prelude.{◌≡◌, [], ◌+◌, ◌<◌};
ghost use Rattle.tables.specs.Operands.{lend_names, under};
ghost use Rattle.grammar.specs.Plan.{target_sound, plan_row_sound, plan_check};

use grammar::PlanRow;
use plan_rows::rows::plan_row;
use plans::Target;
use shapes::condition_sound;
use tables::Refusal;

// A target of row k is a later row of the plan, or a verdict.
fn target_sound(rows: usize, k: usize, target: u32) -> bool
    ensures { result ≡ target_sound rows k target }
{
    let next = target as usize;
    ((k < next) & (next < rows)) | (target == Target::FALSE) | (target == Target::TRUE)
}

// `off`, here and below: the rules have the switch-off words.
fn row_sound(
    off: bool,
    items: &[u32],
    literals: &[u32],
    names: &[u32],
    rows: usize,
    k: usize,
    row: PlanRow,
) -> bool
    ensures { result ≡ plan_row_sound (under off (lend_names items.now literals.now [] names.now)) rows k row }
{
    if !condition_sound(
        off,
        items,
        literals,
        names,
        row.subject,
        row.relation,
        row.object,
    ) {
        return false;
    }
    target_sound(rows, k, row.holds) & target_sound(rows, k, row.fails)
}

// 11: a plan of 1 to 128 rows of five, and the first row that is not as a plan's rows are.
pub fn check_plan(
    off: bool,
    items: &[u32],
    literals: &[u32],
    names: &[u32],
    plan: &[u32],
) -> Result<(), Refusal>
    ensures { result ≡ plan_check (under off (lend_names items.now literals.now [] names.now)) plan.now }
{
    let rows = plan.len() / 5;
    if !((plan.len() % 5 == 0) & (1 <= rows) & (rows <= 128)) {
        return Err(Refusal::PlanRow(0));
    }
    for k in 0..rows {
        if !row_sound(off, items, literals, names, rows, k, plan_row(plan, k)) {
            return Err(Refusal::PlanRow(k));
        }
    }
    Ok(())
}
