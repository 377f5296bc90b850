// The rows of a plan, converted one by one.
ghost use Rattle.std.specs.Prelude.{◌≡◌, [], ◌∷◌, ◌++◌, ◌≤◌, length, drop};
ghost use Rattle.grammar.specs.Plan.{flat};
ghost use Rattle.grammar.specs.Converted.{on_row, converted_plan};

use grammar::PlanRow;
use plan_rows::rows::plan_row;
use tables::tokens::{SPAN, SWITCH_OFF};

// An off switch becomes the on switch, with the targets exchanged.
fn on_row(row: PlanRow) -> PlanRow
    ensures { result ≡ on_row row }
{
    if row.subject / SPAN == SWITCH_OFF {
        return PlanRow {
            subject: row.subject - SPAN,
            relation: row.relation,
            object: row.object,
            holds: row.fails,
            fails: row.holds,
        };
    }
    row
}

// The five numbers of a row, at the start of the output.
fn write_row(out: &mut [u32], row: PlanRow)
    requires { 5 ≤ length out.old }
    ensures { out.new ≡ flat (row ∷ []) ++ drop 5 out.old }
{
    out[0] = row.subject;
    out[1] = row.relation;
    out[2] = row.object;
    out[3] = row.holds;
    out[4] = row.fails;
}

// The converted plan, at the start of the output.
pub fn write_plan(plan: &[u32], out: &mut [u32])
    requires { length (converted_plan plan.now) ≤ length out.old }
    ensures { out.new ≡ converted_plan plan.now ++ drop (length (converted_plan plan.now)) out.old }
{
    for k in 0..plan.len() / 5 {
        let row = on_row(plan_row(plan, k));
        write_row(&mut out[k * 5..], row);
    }
}
