// Conditions and plans of the old rules, converted for the calls of today.
ghost use Rattle.std.specs.Prelude.{◌≡◌, true, [], ◌∷◌, ◌++◌};
ghost use Rattle.tables.specs.Operands.{lend_names, under};
ghost use Rattle.tables.specs.Refusals.{first_of};
ghost use Rattle.values.specs.Names.{lent_lines};
ghost use Rattle.grammar.specs.Plan.{plan_check};
ghost use Rattle.rules.specs.Calls.{Leaves};
ghost use Rattle.rules.specs.Converting.{convert_gives, convert_plan_gives};

use conversion::words::{converted_length, write_converted};
use plan_checks::check_plan;
use plan_conversion::rows::write_plan;
use preparer::lent::check_lent;
use preparer::prepare::prepare;
use tables::Refusal;

// A condition of the rules that had switch-off words, written with switch-on words from the start of the output.
pub fn convert_condition(
    items: &[u32],
    literals: &[u32],
    bytes: &[u8],
    names: &[u32],
    tokens: &[u32],
    output: &mut [u32],
) -> Result<usize, Refusal>
    ensures { Leaves (convert_gives (lend_names items.now literals.now bytes.now names.now) tokens.now output.old) result output.new }
{
    let mut rows = [0u32; 640];
    prepare(true, items, literals, bytes, names, tokens, &mut rows)?;
    let length = converted_length(tokens);
    if 256 < length {
        return Err(Refusal::TokenCount);
    }
    if output.len() < length {
        return Err(Refusal::Room(length));
    }
    Ok(write_converted(tokens, output))
}

// What run refused before 12 by the old rules: 1 to 4, 18 and 11.
fn check_old(
    items: &[u32],
    literals: &[u32],
    bytes: &[u8],
    names: &[u32],
    plan: &[u32],
) -> Result<(), Refusal>
    ensures { result ≡ first_of (lent_lines (under true (lend_names items.now literals.now bytes.now names.now)) ++ plan_check (under true (lend_names items.now literals.now bytes.now names.now)) plan.now ∷ []) }
{
    check_lent(items, literals, bytes, names)?;
    check_plan(true, items, literals, names, plan)
}

// A plan of the rules that had switch-off words, with switch-on words, from the start of the output.
pub fn convert_plan(
    items: &[u32],
    literals: &[u32],
    bytes: &[u8],
    names: &[u32],
    plan: &[u32],
    output: &mut [u32],
) -> Result<usize, Refusal>
    ensures { Leaves (convert_plan_gives (lend_names items.now literals.now bytes.now names.now) plan.now output.old) result output.new }
{
    check_old(items, literals, bytes, names, plan)?;
    let needed = plan.len();
    if output.len() < needed {
        return Err(Refusal::Room(needed));
    }
    write_plan(plan, output);
    Ok(needed)
}
