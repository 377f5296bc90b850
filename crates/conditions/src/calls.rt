// Judge a condition, and run a plan. Each promises its whole answer, and the answer in the document's numbers.
ghost use Rattle.std.specs.Prelude.{◌≡◌, []};
ghost use Rattle.tables.specs.declared.Verdict.TheVariants.{Refused as Unjudged};
ghost use Rattle.tables.specs.Operands.{lend_names};
ghost use Rattle.grammar.specs.Judging.{walk};
ghost use Rattle.rules.specs.Calls.{told, judge_gives, run_gives};
ghost use Rattle.rules.specs.Numbers.{of_verdict};

use checks::lent::check_record;
use plan_checks::check_plan;
use preparer::lent::check_lent;
use preparer::prepare::prepare;
use runner::run_rows;
use tables::{Judged, Refusal, Verdict};

// Refused before anything was judged.
fn unjudged(refusal: Refusal) -> Judged
    ensures { result ≡ told (walk (Unjudged refusal) []) }
{
    Judged {
        verdict: Verdict::Refused(refusal),
        count: 0,
    }
}

// The truth of a condition on a record and a switch byte.
pub fn judge<'a>(
    items: &[u32],
    literals: &[u32],
    bytes: &'a [u8],
    names: &[u32],
    tokens: &[u32],
    record: &'a [u8],
    switches: u8,
) -> Judged
    ensures value { result ≡ judge_gives (lend_names items.now literals.now bytes.now names.now) tokens.now «record».now switches }
    ensures verdict_value { of_verdict result.verdict ≡ of_verdict (judge_gives (lend_names items.now literals.now bytes.now names.now) tokens.now «record».now switches).verdict }
{
    let mut rows = [0u32; 640];
    let prepared = prepare(false, items, literals, bytes, names, tokens, &mut rows);
    match prepared {
        Err(refusal) => unjudged(refusal),
        Ok(count) => {
            let held = check_record(items, record);
            if let Err(refusal) = held {
                return unjudged(refusal);
            }
            let end = count * 5;
            run_rows(
                items,
                literals,
                bytes,
                names,
                &rows[..end],
                record,
                switches,
            )
        }
    }
}

// The run of a plan, whatever numbers it has, on a record and a switch byte.
pub fn run<'a>(
    items: &[u32],
    literals: &[u32],
    bytes: &'a [u8],
    names: &[u32],
    plan: &[u32],
    record: &'a [u8],
    switches: u8,
) -> Judged
    ensures value { result ≡ run_gives (lend_names items.now literals.now bytes.now names.now) plan.now «record».now switches }
    ensures verdict_value { of_verdict result.verdict ≡ of_verdict (run_gives (lend_names items.now literals.now bytes.now names.now) plan.now «record».now switches).verdict }
{
    let lent = check_lent(items, literals, bytes, names);
    if let Err(refusal) = lent {
        return unjudged(refusal);
    }
    let rows = check_plan(false, items, literals, names, plan);
    if let Err(refusal) = rows {
        return unjudged(refusal);
    }
    let held = check_record(items, record);
    if let Err(refusal) = held {
        return unjudged(refusal);
    }
    run_rows(items, literals, bytes, names, plan, record, switches)
}
