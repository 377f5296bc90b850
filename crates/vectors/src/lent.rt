// The four calls on what a case lends them.
ghost use Rattle.std.specs.Prelude.{◌≡◌};
ghost use Rattle.rules.specs.Calls.{expand_gives, plan_gives, judge_gives, run_gives, Leaves};
ghost use Rattle.vectors.specs.Parts.{lent_in, tokens_in, switches_in};

use crate::parts::{ITEMS, LITERALS, NAMES, TOKENS, part, switches};
use tables::{Judged, Refusal};

pub(crate) fn expand(words: &[u32], bytes: &[u8], output: &mut [u32]) -> Result<usize, Refusal>
    ensures { Leaves (expand_gives (lent_in words.now bytes.now) (tokens_in words.now) output.old) result output.new }
{
    let items = part(words, ITEMS);
    let literals = part(words, LITERALS);
    let names = part(words, NAMES);
    let tokens = part(words, TOKENS);
    forms::calls::expand(items, literals, bytes, names, tokens, output)
}

pub(crate) fn plan(
    words: &[u32],
    bytes: &[u8],
    tokens: &[u32],
    output: &mut [u32],
) -> Result<usize, Refusal>
    ensures { Leaves (plan_gives (lent_in words.now bytes.now) tokens.now output.old) result output.new }
{
    let items = part(words, ITEMS);
    let literals = part(words, LITERALS);
    let names = part(words, NAMES);
    forms::calls::plan(items, literals, bytes, names, tokens, output)
}

pub(crate) fn judge<'a>(words: &[u32], bytes: &'a [u8], record: &'a [u8]) -> Judged
    ensures { result ≡ judge_gives (lent_in words.now bytes.now) (tokens_in words.now) «record».now (switches_in words.now) }
{
    let items = part(words, ITEMS);
    let literals = part(words, LITERALS);
    let names = part(words, NAMES);
    let tokens = part(words, TOKENS);
    conditions::calls::judge(
        items,
        literals,
        bytes,
        names,
        tokens,
        record,
        switches(words),
    )
}

pub(crate) fn run<'a>(words: &[u32], bytes: &'a [u8], plan: &[u32], record: &'a [u8]) -> Judged
    ensures { result ≡ run_gives (lent_in words.now bytes.now) plan.now «record».now (switches_in words.now) }
{
    let items = part(words, ITEMS);
    let literals = part(words, LITERALS);
    let names = part(words, NAMES);
    conditions::calls::run(items, literals, bytes, names, plan, record, switches(words))
}
