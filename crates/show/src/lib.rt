// Demand 3 shown of the code: plan, run, expand and plan again, called one after the other in buffers that the caller lends.
#![tactic(auto)]

ghost use Rattle.tables.specs.Operands.{lend_names};
ghost use Rattle.show.specs.Shown.{Shows};

use conditions::calls::run;
use forms::calls::{expand, plan};
use tables::{Judged, Refusal};

// What plan, run, expand and plan again gave.
#[derive(Clone, Copy)]
pub struct Shown {
    pub count: usize,
    pub judged: Judged,
    pub expanded: Result<usize, Refusal>,
    pub again: Result<usize, Refusal>,
}

pub fn show<'a>(
    items: &[u32],
    literals: &[u32],
    bytes: &'a [u8],
    names: &[u32],
    tokens: &[u32],
    record: &'a [u8],
    switches: u8,
    rows: &mut [u32],
    form: &mut [u32],
    second: &mut [u32],
) -> Result<Shown, Refusal>
    ensures { Shows (lend_names items.now literals.now bytes.now names.now) tokens.now «record».now switches rows.old form.old second.old result rows.new form.new second.new }
{
    let planned = plan(items, literals, bytes, names, tokens, rows);
    match planned {
        Err(refusal) => Err(refusal),
        Ok(count) => {
            let judged = run(
                items,
                literals,
                bytes,
                names,
                &rows[..count],
                record,
                switches,
            );
            let expanded = expand(items, literals, bytes, names, tokens, form);
            match expanded {
                Err(refusal) => Ok(Shown {
                    count,
                    judged,
                    expanded,
                    again: Err(refusal),
                }),
                Ok(length) => Ok(Shown {
                    count,
                    judged,
                    expanded,
                    again: plan(items, literals, bytes, names, &form[..length], second),
                }),
            }
        }
    }
}
