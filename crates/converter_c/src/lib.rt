// The converters of the rules that had switch-off words, for C and COBOL, told as `answers` says.
#![tactic(auto)]

ghost use Rattle.tables.specs.Operands.{lend_names};
ghost use Rattle.rules.specs.Converting.{convert_gives, convert_plan_gives};
ghost use Rattle.answers.specs.Answer.{Leaves};

use answers::written::tell_written;

#[unsafe(no_mangle)]
pub extern "C" fn oboecurlew_convert_condition(
    items: &[u32],
    literals: &[u32],
    bytes: &[u8],
    names: &[u32],
    tokens: &[u32],
    output: &mut [u32],
    answer: &mut [u32; 9],
) -> u32
    ensures { Leaves (convert_gives (lend_names items.now literals.now bytes.now names.now) tokens.now output.old) result answer.new output.new }
{
    tell_written(
        converter::calls::convert_condition(items, literals, bytes, names, tokens, output),
        answer,
    )
}

#[unsafe(no_mangle)]
pub extern "C" fn oboecurlew_convert_plan(
    items: &[u32],
    literals: &[u32],
    bytes: &[u8],
    names: &[u32],
    plan: &[u32],
    output: &mut [u32],
    answer: &mut [u32; 9],
) -> u32
    ensures { Leaves (convert_plan_gives (lend_names items.now literals.now bytes.now names.now) plan.now output.old) result answer.new output.new }
{
    tell_written(
        converter::calls::convert_plan(items, literals, bytes, names, plan, output),
        answer,
    )
}
