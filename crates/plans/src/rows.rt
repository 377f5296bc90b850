// One more row of a plan, and where its verdicts lead.
ghost use Rattle.std.specs.Prelude.{◌≡◌, ◌*◌, ◌≤◌, ◌<◌, length};
ghost use Rattle.plans.specs.Rows.{aim, Added, Turned};

use crate::Target;

// Row number `row`, whose targets are the verdicts.
pub fn put_row(rows: &mut [u32], row: usize, subject: u32, relation: u32, object: u32)
    requires { (row < 128) × (640 ≤ length rows.old) }
    ensures { Added row rows.old subject relation object rows.new }
{
    let at = row * 5;
    rows[at] = subject;
    rows[at + 1] = relation;
    rows[at + 2] = object;
    rows[at + 3] = Target::TRUE;
    rows[at + 4] = Target::FALSE;
}

// A verdict becomes the target that it now leads to; a row stays.
fn aimed(number: u32, holds: Target, fails: Target) -> u32
    ensures { result ≡ aim holds.number fails.number number }
{
    if number == Target::TRUE {
        return holds.number;
    }
    if number == Target::FALSE {
        return fails.number;
    }
    number
}

// The verdicts in rows `from` to `end` become the given targets.
pub fn retarget(rows: &mut [u32], from: usize, end: usize, holds: Target, fails: Target)
    requires { (from ≤ end) × (end * 5 ≤ length rows.old) }
    ensures { Turned holds.number fails.number end rows.new rows.old from }
{
    for i in from..end {
        let t = i * 5 + 3;
        rows[t] = aimed(rows[t], holds, fails);
        let f = i * 5 + 4;
        rows[f] = aimed(rows[f], holds, fails);
    }
}
