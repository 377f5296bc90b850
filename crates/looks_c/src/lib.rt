// What a rule looks at, for C and COBOL, told as `answers` says.
#![tactic(auto)]

ghost use Rattle.tables.specs.Operands.{lend_names};
ghost use Rattle.look_lists.specs.Looked.{looked_gives, looked_plan_gives, named_gives};
ghost use Rattle.answers.specs.Answer.{Lists};

use answers::written::tell_listed;

#[unsafe(no_mangle)]
pub extern "C" fn oboecurlew_looked_at<'a>(
    items: &[u32],
    literals: &[u32],
    bytes: &'a [u8],
    names: &[u32],
    tokens: &[u32],
    record: &'a [u8],
    switches: u8,
    rows: &mut [u32],
    answer: &mut [u32; 9],
) -> u32
    ensures { Lists (looked_gives (lend_names items.now literals.now bytes.now names.now) tokens.now «record».now switches rows.old) result answer.new rows.new }
{
    tell_listed(
        looks::calls::looked_at(
            items, literals, bytes, names, tokens, record, switches, rows,
        ),
        answer,
    )
}

#[unsafe(no_mangle)]
pub extern "C" fn oboecurlew_looked_at_plan<'a>(
    items: &[u32],
    literals: &[u32],
    bytes: &'a [u8],
    names: &[u32],
    plan: &[u32],
    record: &'a [u8],
    switches: u8,
    rows: &mut [u32],
    answer: &mut [u32; 9],
) -> u32
    ensures { Lists (looked_plan_gives (lend_names items.now literals.now bytes.now names.now) plan.now «record».now switches rows.old) result answer.new rows.new }
{
    tell_listed(
        looks::calls::looked_at_plan(items, literals, bytes, names, plan, record, switches, rows),
        answer,
    )
}

#[unsafe(no_mangle)]
pub extern "C" fn oboecurlew_named_items(
    items: &[u32],
    literals: &[u32],
    bytes: &[u8],
    names: &[u32],
    tokens: &[u32],
    rows: &mut [u32],
    answer: &mut [u32; 9],
) -> u32
    ensures { Lists (named_gives (lend_names items.now literals.now bytes.now names.now) tokens.now rows.old) result answer.new rows.new }
{
    tell_listed(
        looks::calls::named_items(items, literals, bytes, names, tokens, rows),
        answer,
    )
}
