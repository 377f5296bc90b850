// Expand and plan a condition. Each promises its whole answer, and the answer in the document's numbers.
ghost use Rattle.std.specs.Prelude.{◌≡◌, ◌++◌, ◌≤◌, length, drop};
ghost use Rattle.tables.specs.Operands.{lend_names};
ghost use Rattle.rules.specs.Calls.{expand_gives, plan_gives, Leaves};
ghost use Rattle.rules.specs.Numbers.{of_written};

use expander::expand::write_expanded;
use preparer::prepare::prepare;
use tables::Refusal;

// The expanded form of a condition, written from the start of the output: the count of numbers written, or a refusal.
pub fn expand(
    items: &[u32],
    literals: &[u32],
    bytes: &[u8],
    names: &[u32],
    tokens: &[u32],
    output: &mut [u32],
) -> Result<usize, Refusal>
    ensures leaves { Leaves (expand_gives (lend_names items.now literals.now bytes.now names.now) tokens.now output.old) result output.new }
    ensures result_value { of_written result ≡ of_written (expand_gives (lend_names items.now literals.now bytes.now names.now) tokens.now output.old).answer }
{
    let mut rows = [0u32; 640];
    prepare(false, items, literals, bytes, names, tokens, &mut rows)?;
    let mut form = [0u32; 640];
    let length = write_expanded(tokens, &mut form);
    if output.len() < length {
        return Err(Refusal::Room(length));
    }
    copy(&form[..length], output);
    Ok(length)
}

// The numbers from the start of a longer output.
fn copy(numbers: &[u32], output: &mut [u32])
    requires { length numbers.now ≤ length output.old }
    ensures { output.new ≡ numbers.now ++ drop (length numbers.now) output.old }
{
    output[..numbers.len()].copy_from_slice(numbers);
}

// The plan of a condition, five numbers for each simple condition, written from the start of the output.
pub fn plan(
    items: &[u32],
    literals: &[u32],
    bytes: &[u8],
    names: &[u32],
    tokens: &[u32],
    output: &mut [u32],
) -> Result<usize, Refusal>
    ensures leaves { Leaves (plan_gives (lend_names items.now literals.now bytes.now names.now) tokens.now output.old) result output.new }
    ensures result_value { of_written result ≡ of_written (plan_gives (lend_names items.now literals.now bytes.now names.now) tokens.now output.old).answer }
{
    let mut rows = [0u32; 640];
    let count = prepare(false, items, literals, bytes, names, tokens, &mut rows)?;
    let needed = count * 5;
    if output.len() < needed {
        return Err(Refusal::Room(needed));
    }
    copy(&rows[..needed], output);
    Ok(needed)
}
