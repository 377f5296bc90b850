// A whole entry.
ghost use Rattle.std.specs.Prelude.{◌≡◌, ◌+◌, ◌≤◌, length, replicate};
ghost use Rattle.name_entries.specs.Named.{Begun, Ready, ValuesBy, NamedBy};
ghost use Rattle.tables.specs.Rows.{name_width};

use crate::NameRead;
use condition_names::ValueRead;
use condition_names::scan::value_at;
use content::Row;
use value_notes::Tally;
use value_notes::notes::clear;
use value_notes::taking::take_value;
use value_weights::weights::weigh;
use wanted_words::literals::literal;
use words::names::label_at;

// The values after VALUE, up to the entry's period. `row` is a row of zeros, for their pairs.
fn read_values(
    text: &[u8],
    n: usize,
    item: Row,
    start: Tally,
    row: &mut [u32],
    notes: &mut [u32],
) -> Result<NameRead, usize>
    requires { (n ≤ length text.now) × Begun text.now start row.old notes.old }
    ensures { ValuesBy text.now n item start notes.old result row.new notes.new }
{
    let mut tally = start;
    let mut at = n;
    // Where the next value begins depends on what is read.
    loop {
        match value_at(text, at) {
            Ok(ValueRead::Open { found, end }) => {
                tally = take_value(weigh(text, item, found), found, tally, row, notes);
                at = end;
            }
            Ok(ValueRead::Ended { found, end }) => {
                let last = take_value(weigh(text, item, found), found, tally, row, notes);
                return Ok(NameRead { tally: last, end });
            }
            // An arm, not `?`: must-fail/counted_note_cleared clears a note in it.
            Err(k) => {
                return Err(k);
            }
        }
    }
}

// The entry whose level number ends at n: its name, VALUE and its values; or the first faulty byte. `row` is for their pairs. What is free of it and
// of `notes` afterwards: `Spared`.
pub fn read_name(
    text: &[u8],
    n: usize,
    item: Row,
    start: Tally,
    row: &mut [u32],
    notes: &mut [u32],
) -> Result<NameRead, usize>
    requires { (n ≤ length text.now) × (Ready text.now start notes.old × (length row.old ≡ name_width)) }
    ensures { NamedBy text.now n item start notes.old result row.new notes.new }
{
    clear(row);
    let k = label_at(text, n)?;
    let m = literal(b"VALUE", text, k)?;
    read_values(text, m, item, start, row, notes)
}
