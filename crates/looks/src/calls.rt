// What a rule looked at on a record, by its tokens or by its plan, and what it names at all.
ghost use Rattle.std.specs.Prelude.{◌≡◌};
ghost use Rattle.tables.specs.Operands.{lend_names};
ghost use Rattle.tables.specs.Refusals.{first_of};
ghost use Rattle.rules.specs.Calls.{Leaves};
ghost use Rattle.look_lists.specs.Looked.{run_lines, looked_gives, looked_plan_gives, named_gives};

use checks::lent::check_record;
use look_lists::lists::{list_named, list_reached};
use plan_checks::check_plan;
use preparer::lent::check_lent;
use preparer::prepare::prepare;
use tables::Refusal;

// The item rows of the simple conditions that judging came to, in rising order, each once.
pub fn looked_at<'a>(
    items: &[u32],
    literals: &[u32],
    bytes: &'a [u8],
    names: &[u32],
    tokens: &[u32],
    record: &'a [u8],
    switches: u8,
    rows: &mut [u32],
) -> Result<usize, Refusal>
    ensures { Leaves (looked_gives (lend_names items.now literals.now bytes.now names.now) tokens.now «record».now switches rows.old) result rows.new }
{
    let mut plan = [0u32; 640];
    let count = prepare(false, items, literals, bytes, names, tokens, &mut plan)?;
    check_record(items, record)?;
    let end = count * 5;
    list_reached(
        items,
        literals,
        bytes,
        names,
        &plan[..end],
        record,
        switches,
        rows,
    )
}

// 1 to 4, 18, 11, 12.
fn check_run(
    items: &[u32],
    literals: &[u32],
    bytes: &[u8],
    names: &[u32],
    plan: &[u32],
    record: &[u8],
) -> Result<(), Refusal>
    ensures { result ≡ first_of (run_lines (lend_names items.now literals.now bytes.now names.now) plan.now «record».now) }
{
    check_lent(items, literals, bytes, names)?;
    check_plan(false, items, literals, names, plan)?;
    check_record(items, record)
}

// The same of the rows that a run of a plan came to.
pub fn looked_at_plan<'a>(
    items: &[u32],
    literals: &[u32],
    bytes: &'a [u8],
    names: &[u32],
    plan: &[u32],
    record: &'a [u8],
    switches: u8,
    rows: &mut [u32],
) -> Result<usize, Refusal>
    ensures { Leaves (looked_plan_gives (lend_names items.now literals.now bytes.now names.now) plan.now «record».now switches rows.old) result rows.new }
{
    check_run(items, literals, bytes, names, plan, record)?;
    list_reached(items, literals, bytes, names, plan, record, switches, rows)
}

// Every item that a condition names, judged or not.
pub fn named_items(
    items: &[u32],
    literals: &[u32],
    bytes: &[u8],
    names: &[u32],
    tokens: &[u32],
    rows: &mut [u32],
) -> Result<usize, Refusal>
    ensures { Leaves (named_gives (lend_names items.now literals.now bytes.now names.now) tokens.now rows.old) result rows.new }
{
    let mut plan = [0u32; 640];
    let count = prepare(false, items, literals, bytes, names, tokens, &mut plan)?;
    let end = count * 5;
    list_named(items, names, &plan[..end], rows)
}
