// judge: what a rule says of one record.
ghost use Rattle.std.specs.Prelude.{◌≡◌, ◌≤◌};
ghost use Rattle.tables.specs.Operands.{lend_names};
ghost use Rattle.rules.specs.Calls.{run_gives};
ghost use Rattle.logbook_program.specs.Ruled.{status_of};

use crate::files::{large, load};
use crate::refusals::{numbered, of_record};
use crate::verdicts::{judged, stop, verdict};
use conditions::calls::run;
use fronts::front_bytes;
use tables::{Refusal, Verdict};

// A refusal of a run: a stop on what an item holds, or a record that is too short.
pub(crate) fn refused(
    rt: HostRuntime,
    description: &[u8],
    items: &[u32],
    places: &[u32],
    literals: &[u32],
    bytes: &[u8],
    plan: &[u32],
    record: &[u8],
    refusal: Refusal,
) {
    match refusal {
        Refusal::Data { condition, byte } => {
            numbered(&rt.stdout(), b"stopped: ", 13);
            stop(
                rt,
                description,
                items,
                places,
                literals,
                bytes,
                plan,
                record,
                condition,
                byte,
            );
        }
        Refusal::Letters { condition, byte } => {
            numbered(&rt.stdout(), b"stopped: ", 17);
            stop(
                rt,
                description,
                items,
                places,
                literals,
                bytes,
                plan,
                record,
                condition,
                byte,
            );
        }
        _ => of_record(rt, refusal, description, places),
    }
}

// The verdict on standard output, and the status.
fn judge_loaded<'a>(
    rt: HostRuntime,
    description: &[u8],
    items: &[u32],
    places: &[u32],
    names: &[u32],
    literals: &[u32],
    bytes: &'a [u8],
    plan: &[u32],
    record: &'a [u8],
    switches: u8,
) -> u32
    ensures upper_bound { result ≤ 2 }
    ensures value { result ≡ status_of (run_gives (lend_names items.now literals.now bytes.now names.now) plan.now «record».now switches).verdict }
{
    let answer = run(items, literals, bytes, names, plan, record, switches);
    let said = answer.verdict;
    match said {
        Verdict::True => {
            verdict(rt, true, answer.count);
            0
        }
        Verdict::False => {
            verdict(rt, false, answer.count);
            1
        }
        Verdict::Refused(refusal) => {
            refused(
                rt,
                description,
                items,
                places,
                literals,
                bytes,
                plan,
                record,
                refusal,
            );
            judged(rt, answer.count);
            2
        }
    }
}

pub(crate) fn judge_record(
    rt: HostRuntime,
    description: &[u8],
    items: &[u32],
    places: &[u32],
    names: &[u32],
    literals: &[u32],
    bytes: &[u8],
    plan: &[u32],
    switches: u8,
) -> u32
    ensures { result ≤ 2 }
{
    let mut record = large();
    match load(rt, 4, &mut record) {
        None => 2,
        Some(n) => judge_loaded(
            rt,
            description,
            items,
            places,
            names,
            literals,
            bytes,
            plan,
            front_bytes(&record, n),
            switches,
        ),
    }
}
