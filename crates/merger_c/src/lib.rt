// The merge desk, for C and COBOL, told as `answers` says.
#![tactic(auto)]

ghost use Rattle.tables.specs.Operands.{lend_names};
ghost use Rattle.merging.specs.Merge.{merge_gives};
ghost use Rattle.merger_c.specs.Merging.{MergesTo};

use record_answers::merged::tell_merged;

#[unsafe(no_mangle)]
pub extern "C" fn oboecurlew_merge<'a>(
    items: &[u32],
    literals: &[u32],
    bytes: &'a [u8],
    names: &[u32],
    plan: &[u32],
    old: &'a [u8],
    first: &'a [u8],
    second: &'a [u8],
    switches: u8,
    merged: &mut [u8],
    contested: &mut [u32],
    answer: &mut [u32; 9],
) -> u32
    ensures { MergesTo (merge_gives (lend_names items.now literals.now bytes.now names.now) plan.now switches old.now first.now second.now merged.old contested.old) result answer.new merged.new contested.new }
{
    tell_merged(
        merger::calls::merge(
            items, literals, bytes, names, plan, old, first, second, switches, merged, contested,
        ),
        answer,
    )
}
