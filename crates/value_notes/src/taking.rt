// Values, judged and stored, until a limit is passed.
ghost use Rattle.std.specs.Prelude.{◌≡◌, true, ◌≤◌};
ghost use Rattle.value_weights.specs.declared.Weighed.TheVariants as Weighed;
ghost use Rattle.value_notes.specs.Taking.{Rooms, Small, Takes};

use crate::Tally;
use crate::notes::{put_literal, put_pair};
use condition_names::Found;
use content::Row;
use value_weights::Weighed;

fn passed(tally: Tally) -> Tally
    ensures { result ≡ record { over = true; values = tally.values; literals = tally.literals; bytes = tally.bytes } }
{
    Tally {
        over: true,
        ..tally
    }
}

fn take_single(low: Row, found: Found, tally: Tally, row: &mut [u32], notes: &mut [u32]) -> Tally
    requires { Rooms found tally row.old notes.old × (low.size ≤ 256) }
    ensures { Takes (Weighed.Single low) found tally row.old notes.old result row.new notes.new }
{
    if tally.over | ((8 <= tally.values) | (64 <= tally.literals)) {
        return passed(tally);
    }
    let k = tally.literals;
    put_literal(notes, k, low, tally.bytes, found.low, found.mid);
    put_pair(row, tally.values, k, k);
    Tally {
        over: false,
        values: tally.values + 1,
        literals: k + 1,
        bytes: tally.bytes + low.size as usize,
    }
}

fn take_range(
    low: Row,
    high: Row,
    found: Found,
    tally: Tally,
    row: &mut [u32],
    notes: &mut [u32],
) -> Tally
    requires { Rooms found tally row.old notes.old × ((low.size ≤ 256) × (high.size ≤ 256)) }
    ensures { Takes (Weighed.Range low high) found tally row.old notes.old result row.new notes.new }
{
    if tally.over | ((8 <= tally.values) | (63 <= tally.literals)) {
        return passed(tally);
    }
    let k = tally.literals;
    let offset = tally.bytes + low.size as usize;
    put_literal(notes, k, low, tally.bytes, found.low, found.mid);
    put_literal(notes, k + 1, high, offset, found.high, found.end);
    put_pair(row, tally.values, k, k + 1);
    Tally {
        over: false,
        values: tally.values + 1,
        literals: k + 2,
        bytes: offset + high.size as usize,
    }
}

// A value, and the buffers: `row` for its pair, `notes` for its literals.
pub fn take_value(
    weighed: Weighed,
    found: Found,
    tally: Tally,
    row: &mut [u32],
    notes: &mut [u32],
) -> Tally
    requires { Rooms found tally row.old notes.old × Small weighed }
    ensures { Takes weighed found tally row.old notes.old result row.new notes.new }
{
    match weighed {
        Weighed::Barred => passed(tally),
        Weighed::Single(low) => take_single(low, found, tally, row, notes),
        Weighed::Range(low, high) => take_range(low, high, found, tally, row, notes),
    }
}
