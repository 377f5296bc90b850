// A file part by part: a block of records is walked row by row, and what is not known of a record then is run.
ghost use Rattle.std.specs.Prelude.{◌≡◌, ◌≤◌, length, drop};
ghost use Rattle.std.proofs.lemmas.List.Edits.{sets};
ghost use Rattle.tables.specs.Operands.{lend_names};
ghost use Rattle.values.specs.Truth.{outcome};
ghost use Rattle.grammar.specs.Plan.{running};
ghost use Rattle.rules.specs.Calls.{told, run_gives};
ghost use Rattle.runner.specs.Runs.{Runnable};
ghost use Rattle.blocks.specs.Blocks.{Settled, Walked};
ghost use Rattle.sweeps.specs.Sweep.{laid, answers_of, Sweepable};
ghost use Rattle.sweeps.specs.Parts.{Part};

use crate::answers::put_answer;
use block_truths::Block;
use blocks::walk::walk_block;
use places::{AT_FALSE, AT_TRUE, BLOCK, UNKNOWN};
use runner::run_rows;
use tables::{Judged, Verdict};

// The numbers of one record.
pub const WIDTH: usize = 4;

// A block's bytes are few enough to be found near when the next row is judged.
const NEAR: usize = 65536;

// A walk of fewer records than these costs more than it saves.
const FEW: usize = 8;

// The file's first bytes: a field there cannot be read with what stands before it.
const EDGE: usize = 8;

// So many of the records left, but at least one, and no more than a block has.
fn bounded(most: usize, left: usize) -> usize
    requires { 1 ≤ left }
    ensures { (1 ≤ result) × (result ≤ left) × (result ≤ 64) }
{
    if most < 1 {
        return 1;
    }
    if (most < left) & (most < BLOCK) {
        return most;
    }
    if left < BLOCK {
        return left;
    }
    BLOCK
}

// How many of the records left go together: those that start in the file's first bytes by themselves.
pub fn part_records(from: usize, left: usize, size: usize) -> usize
    requires { (1 ≤ left) × (1 ≤ size) }
    ensures { (1 ≤ result) × (result ≤ left) × (result ≤ 64) }
{
    if from < EDGE {
        return bounded(EDGE / size + 1, left);
    }
    bounded(NEAR / size, left)
}

// What run answers for a record, which a walk has brought to this place.
fn judged_at<'a>(
    items: &[u32],
    literals: &[u32],
    bytes: &'a [u8],
    names: &[u32],
    plan: &[u32],
    record: &'a [u8],
    switches: u8,
    place: u8,
    count: u8,
) -> Judged
    requires runnable { Runnable (lend_names items.now literals.now bytes.now names.now) plan.now «record».now }
    requires settled { Settled (told (running (outcome (lend_names items.now literals.now bytes.now names.now) «record».now switches) plan.now)) place count }
    ensures { result ≡ told (running (outcome (lend_names items.now literals.now bytes.now names.now) «record».now switches) plan.now) }
{
    if place == AT_TRUE {
        return Judged {
            verdict: Verdict::True,
            count: usize::from(count),
        };
    }
    if place == AT_FALSE {
        return Judged {
            verdict: Verdict::False,
            count: usize::from(count),
        };
    }
    run_rows(items, literals, bytes, names, plan, record, switches)
}

// The four numbers of each of n records.
fn answer_part<'a>(
    items: &[u32],
    literals: &[u32],
    bytes: &'a [u8],
    names: &[u32],
    plan: &[u32],
    records: &'a [u8],
    block: Block,
    switches: u8,
    at: &[u8],
    counts: &[u8],
    answers: &mut [u32],
    out: usize,
)
    requires sweepable { Sweepable (lend_names items.now literals.now bytes.now names.now) plan.now records.now block.size (length answers.old) }
    requires part { Part records.now block.size block.from block.n out (length answers.old) }
    requires at_len { (length at.now ≡ 64) × (length counts.now ≡ 64) × Walked (lend_names items.now literals.now bytes.now names.now) plan.now records.now block.from block.size block.n switches at.now counts.now }
    ensures { answers.new ≡ sets answers.old out (answers_of (λ content. run_gives (lend_names items.now literals.now bytes.now names.now) plan.now content switches) (laid block.n block.size (drop block.from records.now))) }
{
    let size = block.size;
    let n = block.n;
    let mut base = block.from;
    let mut to = out;
    for j in 0..n {
        let content = &records[base..base + size];
        let judged = judged_at(
            items, literals, bytes, names, plan, content, switches, at[j], counts[j],
        );
        put_answer(answers, to, judged);
        base += size;
        to += WIDTH;
    }
}

// A few records are not walked.
pub fn sweep_part<'a>(
    items: &[u32],
    literals: &[u32],
    bytes: &'a [u8],
    names: &[u32],
    plan: &[u32],
    records: &'a [u8],
    block: Block,
    switches: u8,
    answers: &mut [u32],
    out: usize,
)
    requires sweepable { Sweepable (lend_names items.now literals.now bytes.now names.now) plan.now records.now block.size (length answers.old) }
    requires part { Part records.now block.size block.from block.n out (length answers.old) }
    ensures { answers.new ≡ sets answers.old out (answers_of (λ content. run_gives (lend_names items.now literals.now bytes.now names.now) plan.now content switches) (laid block.n block.size (drop block.from records.now))) }
{
    let mut at = [UNKNOWN; 64];
    let mut counts = [0u8; 64];
    if block.n >= FEW {
        walk_block(
            items,
            literals,
            bytes,
            names,
            plan,
            records,
            block,
            switches,
            &mut at,
            &mut counts,
        );
    }
    answer_part(
        items, literals, bytes, names, plan, records, block, switches, &at, &counts, answers, out,
    );
}
