// The call that users make: one plan over a file of records.
ghost use Rattle.std.specs.Prelude.{◌≡◌, ◌++◌, ◌*◌, ◌/◌, length, drop};
ghost use Rattle.tables.specs.Operands.{lend_names};
ghost use Rattle.tables.specs.Refusals.{first_of};
ghost use Rattle.sweeps.specs.Sweep.{evenly, rule_lines, swept_numbers, sweep_gives, Leaves, Sweepable};

use block_truths::Block;
use checks::lent::check_record;
use plan_checks::check_plan;
use preparer::lent::check_lent;
use sweeps::Unswept;
use sweeps::parts::{WIDTH, part_records, sweep_part};
use tables::Refusal;

// As many records as an answer of C can count numbers for.
const MOST: usize = 1073741823;

// 1 to 4, 18 and 11.
fn check_rules(
    items: &[u32],
    literals: &[u32],
    bytes: &[u8],
    names: &[u32],
    plan: &[u32],
) -> Result<(), Refusal>
    ensures { result ≡ first_of (rule_lines (lend_names items.now literals.now bytes.now names.now) plan.now) }
{
    check_lent(items, literals, bytes, names)?;
    check_plan(false, items, literals, names, plan)
}

// Whether records of this size fill so many bytes.
fn is_even(size: usize, bytes: usize) -> bool
    ensures { result ≡ evenly size bytes }
{
    if size == 0 {
        return false;
    }
    (bytes % size == 0) & (bytes / size <= MOST)
}

// Each record's four numbers, one part of the file after another.
fn sweep_records<'a>(
    items: &[u32],
    literals: &[u32],
    bytes: &'a [u8],
    names: &[u32],
    plan: &[u32],
    records: &'a [u8],
    size: usize,
    switches: u8,
    answers: &mut [u32],
)
    requires { Sweepable (lend_names items.now literals.now bytes.now names.now) plan.now records.now size (length answers.old) }
    ensures { answers.new ≡ swept_numbers (lend_names items.now literals.now bytes.now names.now) plan.now records.now size switches ++ drop (length records.now / size * 4) answers.old }
{
    let mut left = records.len() / size;
    let mut from: usize = 0;
    let mut out: usize = 0;
    // How many records go together depends on where they start.
    while left > 0 {
        let n = part_records(from, left, size);
        sweep_part(
            items,
            literals,
            bytes,
            names,
            plan,
            records,
            Block { from, size, n },
            switches,
            answers,
            out,
        );
        left -= n;
        from += n * size;
        out += n * WIDTH;
    }
}

// Runs a plan over records of one size, laid one after another: for each four numbers, its truth or its refusal's number, place and
// byte, and how many simple conditions were judged. A refusal changes nothing.
pub fn sweep<'a>(
    items: &[u32],
    literals: &[u32],
    bytes: &'a [u8],
    names: &[u32],
    plan: &[u32],
    records: &'a [u8],
    size: usize,
    switches: u8,
    answers: &mut [u32],
) -> Result<usize, Unswept>
    ensures { Leaves (sweep_gives (lend_names items.now literals.now bytes.now names.now) plan.now records.now size switches answers.old) result answers.new }
{
    let rules = check_rules(items, literals, bytes, names, plan);
    if let Err(refusal) = rules {
        return Err(Unswept::Refused(refusal));
    }
    if !is_even(size, records.len()) {
        return Err(Unswept::Uneven);
    }
    if records.len() == 0 {
        return Ok(0);
    }
    let held = check_record(items, &records[..size]);
    if let Err(refusal) = held {
        return Err(Unswept::Refused(refusal));
    }
    let count = records.len() / size * WIDTH;
    if answers.len() < count {
        return Err(Unswept::Refused(Refusal::Room(count)));
    }
    sweep_records(
        items, literals, bytes, names, plan, records, size, switches, answers,
    );
    Ok(count)
}
