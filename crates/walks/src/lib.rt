// The items that the rows of a plan name, and those that a run of it comes to.
#![tactic(auto)]

ghost use Rattle.std.specs.Prelude.{◌≡◌, ◌≤◌, length};
ghost use Rattle.tables.specs.Operands.{lend_names};
ghost use Rattle.tables.specs.Rows.{row_count};
ghost use Rattle.values.specs.Truth.{outcome};
ghost use Rattle.grammar.specs.Plan.{plan_rows, run_visits};
ghost use Rattle.items.specs.Items.{listed};
ghost use Rattle.rules.specs.Footprint.{footprint};
ghost use Rattle.runner.specs.Runs.{Runnable};
ghost use Rattle.walker.specs.Marks.{marked, lent_names, AllMarkable, rows_at, next};

use grammar::PlanRow;
use plan_rows::rows::plan_row;
use plans::Target;
use tables::Outcome;
use truth::conditions::truth_of;
use walker::marks::mark_condition;

// Every row of a plan, whether a run would come to it or not.
pub fn mark_named(names: &[u32], plan: &[u32], marks: &mut [u32])
    requires { AllMarkable names.now (length marks.old) plan.now }
    ensures { marks.new ≡ marked marks.old (listed (rows_at (lent_names names.now) plan.now) (plan_rows plan.now)) }
{
    for k in 0..plan.len() / 5 {
        let row = plan_row(plan, k);
        mark_condition(names, row.subject, row.relation, row.object, marks);
    }
}

// Where a run goes after a row: a stop ends it, as a verdict does.
fn next_row(row: PlanRow, found: Outcome) -> usize
    ensures { result ≡ next row found }
{
    match found {
        Outcome::True => row.holds as usize,
        Outcome::False => row.fails as usize,
        Outcome::Stopped(_) => Target::FALSE as usize,
    }
}

// The rows that a run comes to, one that stops among them: it is the runner's loop, with marks in place of the count.
pub fn mark_reached<'a>(
    items: &[u32],
    literals: &[u32],
    bytes: &'a [u8],
    names: &[u32],
    plan: &[u32],
    record: &'a [u8],
    switches: u8,
    marks: &mut [u32],
)
    requires runnable { Runnable (lend_names items.now literals.now bytes.now names.now) plan.now «record».now }
    requires in_bounds { row_count items.now ≤ length marks.old }
    ensures { marks.new ≡ marked marks.old (footprint (lend_names items.now literals.now bytes.now names.now) (run_visits (outcome (lend_names items.now literals.now bytes.now names.now) «record».now switches) plan.now)) }
{
    let mut at: usize = 0;
    // The next row depends on what is judged.
    while at < Target::FALSE as usize {
        let row = plan_row(plan, at);
        mark_condition(names, row.subject, row.relation, row.object, marks);
        let found = truth_of(
            items,
            literals,
            bytes,
            names,
            record,
            switches,
            row.subject,
            row.relation,
            row.object,
        );
        at = next_row(row, found);
    }
}
