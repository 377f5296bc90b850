// One row of a plan.
ghost use Rattle.std.specs.Prelude.{◌≡◌, ◌+◌, ◌*◌, ◌<◌, length};
ghost use Rattle.grammar.specs.Plan.{plan_row};

use grammar::PlanRow;

// The five numbers of row k.
pub fn plan_row(plan: &[u32], k: usize) -> PlanRow
    requires { k * 5 + 4 < length plan.now }
    ensures { result ≡ plan_row plan.now k }
{
    let at = k * 5;
    PlanRow {
        subject: plan[at],
        relation: plan[at + 1],
        object: plan[at + 2],
        holds: plan[at + 3],
        fails: plan[at + 4],
    }
}
