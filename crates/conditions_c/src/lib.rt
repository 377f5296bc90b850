// The calls on conditions for C and COBOL. A slice passes as a pointer and then a length. A call returns the refusal's number, 0 for
// success, and leaves the rest in a lent answer of nine numbers (answers/specs/Answer.antt), each of which is written.
#![tactic(auto)]

ghost use Rattle.tables.specs.Operands.{lend_names};
ghost use Rattle.rules.specs.Calls.{expand_gives, plan_gives, judge_gives, run_gives};
ghost use Rattle.answers.specs.Answer.{Leaves, Tells};

use answers::written::tell_written;
use judged_answers::judged::tell_judged;

#[unsafe(no_mangle)]
pub extern "C" fn oboecurlew_expand(
    items: &[u32],
    literals: &[u32],
    bytes: &[u8],
    names: &[u32],
    tokens: &[u32],
    output: &mut [u32],
    answer: &mut [u32; 9],
) -> u32
    ensures { Leaves (expand_gives (lend_names items.now literals.now bytes.now names.now) tokens.now output.old) result answer.new output.new }
{
    tell_written(
        forms::calls::expand(items, literals, bytes, names, tokens, output),
        answer,
    )
}

#[unsafe(no_mangle)]
pub extern "C" fn oboecurlew_plan(
    items: &[u32],
    literals: &[u32],
    bytes: &[u8],
    names: &[u32],
    tokens: &[u32],
    output: &mut [u32],
    answer: &mut [u32; 9],
) -> u32
    ensures { Leaves (plan_gives (lend_names items.now literals.now bytes.now names.now) tokens.now output.old) result answer.new output.new }
{
    tell_written(
        forms::calls::plan(items, literals, bytes, names, tokens, output),
        answer,
    )
}

#[unsafe(no_mangle)]
pub extern "C" fn oboecurlew_judge<'a>(
    items: &[u32],
    literals: &[u32],
    bytes: &'a [u8],
    names: &[u32],
    tokens: &[u32],
    record: &'a [u8],
    switches: u8,
    answer: &mut [u32; 9],
) -> u32
    ensures { Tells (judge_gives (lend_names items.now literals.now bytes.now names.now) tokens.now «record».now switches) result answer.new }
{
    tell_judged(
        conditions::calls::judge(items, literals, bytes, names, tokens, record, switches),
        answer,
    )
}

#[unsafe(no_mangle)]
pub extern "C" fn oboecurlew_run<'a>(
    items: &[u32],
    literals: &[u32],
    bytes: &'a [u8],
    names: &[u32],
    plan: &[u32],
    record: &'a [u8],
    switches: u8,
    answer: &mut [u32; 9],
) -> u32
    ensures { Tells (run_gives (lend_names items.now literals.now bytes.now names.now) plan.now «record».now switches) result answer.new }
{
    tell_judged(
        conditions::calls::run(items, literals, bytes, names, plan, record, switches),
        answer,
    )
}
