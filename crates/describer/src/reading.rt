// The entries of a text.
ghost use Rattle.std.specs.Prelude.{◌≡◌, ◌≤◌, length, drop};
ghost use Rattle.description.specs.Reader.{read_text};
ghost use Rattle.description.specs.Stages.{parted};
ghost use Rattle.storing.specs.Reads.{ReadBy, Beyond};
ghost use Rattle.tables.specs.Rows.{name_width};

use entries::EntryRead;
use entries::entry::entry_at;
use noting::store::{push, store, waiting_after};
use storing::naming::name_step;
use storing::{Found, Names};
use text_bytes::blanks::next_ink;
use text_bytes::bytes::is_blank;

// Whether a blank or the end of the text stands at a place.
fn parted_at(text: &[u8], k: usize) -> bool
    ensures { result ≡ parted (drop k text.now) }
{
    if text.len() <= k {
        return true;
    }
    is_blank(text[k])
}

fn found(count: usize, whole: bool, place: usize, names: Names) -> Found
    ensures { result ≡ record { count = count; whole = whole; place = place; names = names } }
{
    Found {
        count,
        whole,
        place,
        names,
    }
}

// The entries of a text of at most 4,096 bytes: items in seven numbers each, names in eighteen, the places
// of these, literals in seven. `stack` is for the open groups, `row` for a name's pairs. What is free afterwards: `Beyond`.
pub fn read_entries(
    text: &[u8],
    entries: &mut [u32],
    stack: &mut [u32],
    names: &mut [u32],
    places: &mut [u32],
    notes: &mut [u32],
    row: &mut [u32],
) -> Found
    requires text_len_bound { (length text.now ≤ 4096) × ((5747 ≤ length entries.old) × (821 ≤ length stack.old)) }
    requires in_bounds { (1152 ≤ length names.old) × ((64 ≤ length places.old) × ((448 ≤ length notes.old) × (length row.old ≡ name_width))) }
    ensures read_by { ReadBy text.now (read_text text.now) entries.new names.new places.new notes.new result }
    ensures beyond { Beyond result entries.old stack.old names.old places.old notes.old entries.new stack.new names.new places.new notes.new row.new }
{
    let mut depth: usize = 0;
    let mut waiting: u32 = 0;
    let mut count: usize = 0;
    let mut at: usize = 0;
    let mut kept = Names {
        over: false,
        place: 0,
        count: 0,
        literals: 0,
        bytes: 0,
    };
    // Where the next entry begins depends on what is read.
    loop {
        let p = next_ink(text, at);
        if p == text.len() {
            return found(count, (0 < count) & (waiting == 0), p, kept);
        }
        match entry_at(stack, depth, waiting, 0 < count, text, p) {
            Err(k) => {
                return found(count, false, k, kept);
            }
            Ok(EntryRead::Name) => {
                match name_step(text, p, entries, count, kept, names, places, notes, row) {
                    Ok(step) => {
                        if !parted_at(text, step.end) {
                            return found(count, false, step.end, step.names);
                        }
                        kept = step.names;
                        at = step.end;
                    }
                    Err(e) => {
                        return found(count, false, e, kept);
                    }
                }
            }
            Ok(
                EntryRead::Whole {
                    noted,
                    depth: d,
                    end,
                },
            ) => {
                store(entries, count, noted);
                push(stack, d, noted.level);
                count += 1;
                depth = d;
                waiting = waiting_after(noted);
                at = end;
                if !parted_at(text, end) {
                    return found(count, false, end, kept);
                }
            }
        }
    }
}
