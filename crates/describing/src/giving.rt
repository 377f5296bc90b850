// The six outputs of a description that was read: room, and what is written.
ghost use Rattle.std.specs.Prelude.{◌≡◌, ◌*◌, length};
ghost use Rattle.describing.specs.Calls.{room_for, Ready, Roomy, Wrote, Given};

use crate::{Described, Sizes};
use content::Row;
use literal_outputs::literals::{copy_rows, copy_words};
use outputs::copies::{copy_named, copy_numbers};
use storing::Found;
use tables::rows::NAME_WIDTH;

// The numbers of a row, and of a name's row.
// The counts, or what the first output that lacks room needs.
fn room_for(needed: Sizes, has: Sizes) -> Described
    ensures { result ≡ room_for needed has }
{
    if has.rows < needed.rows {
        return Described::Room(needed.rows);
    }
    if has.places < needed.places {
        return Described::Room(needed.places);
    }
    if has.names < needed.names {
        return Described::Room(needed.names);
    }
    if has.spots < needed.spots {
        return Described::Room(needed.spots);
    }
    if has.literals < needed.literals {
        return Described::Room(needed.literals);
    }
    if has.bytes < needed.bytes {
        return Described::Room(needed.bytes);
    }
    Described::Counts(
        needed.rows,
        needed.places,
        needed.names,
        needed.spots,
        needed.literals,
        needed.bytes,
    )
}

// What the buffers hold, where every output has room.
fn write(
    text: &[u8],
    laid: &[u32],
    entries: &[u32],
    named: &[u32],
    spots: &[u32],
    notes: &[u32],
    found: Found,
    rows: &mut [u32],
    places: &mut [u32],
    names: &mut [u32],
    name_places: &mut [u32],
    literals: &mut [u32],
    bytes: &mut [u8],
)
    requires ready { Ready text.now laid.now entries.now named.now spots.now notes.now found }
    requires roomy { Roomy found (length rows.old) (length places.old) (length names.old) (length name_places.old) (length literals.old) (length bytes.old) }
    ensures { Wrote text.now laid.now entries.now named.now spots.now notes.now found rows.old places.old names.old name_places.old literals.old bytes.old rows.new places.new names.new name_places.new literals.new bytes.new }
{
    let n = found.count;
    let kept = found.names;
    copy_numbers(laid, n * Row::WIDTH, rows);
    copy_named(entries, n, places);
    copy_numbers(named, kept.count * NAME_WIDTH, names);
    copy_numbers(spots, kept.count, name_places);
    copy_rows(notes, kept.literals, literals);
    copy_words(text, notes, kept.literals, bytes);
}

// The same, or what the first output that lacks room needs.
pub fn give(
    text: &[u8],
    laid: &[u32],
    entries: &[u32],
    named: &[u32],
    spots: &[u32],
    notes: &[u32],
    found: Found,
    rows: &mut [u32],
    places: &mut [u32],
    names: &mut [u32],
    name_places: &mut [u32],
    literals: &mut [u32],
    bytes: &mut [u8],
) -> Described
    requires { Ready text.now laid.now entries.now named.now spots.now notes.now found }
    ensures { Given text.now laid.now entries.now named.now spots.now notes.now found rows.old places.old names.old name_places.old literals.old bytes.old result rows.new places.new names.new name_places.new literals.new bytes.new }
{
    let n = found.count;
    let kept = found.names;
    let needed = Sizes {
        rows: n * Row::WIDTH,
        places: n,
        names: kept.count * NAME_WIDTH,
        spots: kept.count,
        literals: kept.literals * Row::WIDTH,
        bytes: kept.bytes,
    };
    let has = Sizes {
        rows: rows.len(),
        places: places.len(),
        names: names.len(),
        spots: name_places.len(),
        literals: literals.len(),
        bytes: bytes.len(),
    };
    let told = room_for(needed, has);
    match told {
        Described::Counts(_, _, _, _, _, _) => {
            write(
                text,
                laid,
                entries,
                named,
                spots,
                notes,
                found,
                rows,
                places,
                names,
                name_places,
                literals,
                bytes,
            );
            told
        }
        Described::Faulty(place) => Described::Faulty(place),
        Described::Room(needed) => Described::Room(needed),
    }
}
