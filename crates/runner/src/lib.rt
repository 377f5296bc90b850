// Running the rows of a plan on a record and a switch byte.
#![tactic(auto)]

ghost use Rattle.std.specs.Prelude.{◌≡◌};
ghost use Rattle.tables.specs.Operands.{lend_names};
ghost use Rattle.values.specs.Truth.{outcome};
ghost use Rattle.grammar.specs.Judging.{stopped};
ghost use Rattle.grammar.specs.Plan.{running};
ghost use Rattle.rules.specs.Calls.{told};
ghost use Rattle.runner.specs.Runs.{Runnable};

use plan_rows::rows::plan_row;
use plans::Target;
use tables::{Judged, Outcome, Refusal, Stop, Verdict};
use truth::conditions::truth_of;

// The refusal of a row that stops.
fn refusal_of(row: usize, stop: Stop) -> Refusal
    ensures { result ≡ stopped row stop }
{
    match stop {
        Stop::Digits(byte) => Refusal::Data {
            condition: row,
            byte,
        },
        Stop::Letters(byte) => Refusal::Letters {
            condition: row,
            byte,
        },
    }
}

// From row 0 on, each row's target is followed: the rows left fall.
pub fn run_rows<'a>(
    items: &[u32],
    literals: &[u32],
    bytes: &'a [u8],
    names: &[u32],
    plan: &[u32],
    record: &'a [u8],
    switches: u8,
) -> Judged
    requires { Runnable (lend_names items.now literals.now bytes.now names.now) plan.now «record».now }
    ensures { result ≡ told (running (outcome (lend_names items.now literals.now bytes.now names.now) «record».now switches) plan.now) }
{
    let mut target = Target::later(0);
    let mut count: usize = 0;
    // The next row depends on what is judged.
    while target.number < Target::FALSE {
        let at = target.number as usize;
        let row = plan_row(plan, at);
        let found = truth_of(
            items,
            literals,
            bytes,
            names,
            record,
            switches,
            row.subject,
            row.relation,
            row.object,
        );
        count += 1;
        match found {
            Outcome::True => {
                target = Target { number: row.holds };
            }
            Outcome::False => {
                target = Target { number: row.fails };
            }
            Outcome::Stopped(stop) => {
                return Judged {
                    verdict: Verdict::Refused(refusal_of(at, stop)),
                    count,
                };
            }
        }
    }
    if target.number == Target::TRUE {
        return Judged {
            verdict: Verdict::True,
            count,
        };
    }
    Judged {
        verdict: Verdict::False,
        count,
    }
}
