// Items of two copies side by side.
ghost use Rattle.std.specs.Prelude.{◌≡◌, take, drop};

use crate::files::back_bytes;
use crate::print::text;
use crate::wording::item_name;
use change_lines::changes::put_change;
use content::Row;
use fronts::front_bytes;

// An item has at most 256 bytes, each shown as three at most, and it is shown twice.
const LINE: usize = 2048;

// The bytes of a row.
pub(crate) fn part(row: Row, record: &[u8]) -> &[u8]
    ensures { result.now ≡ take row.size (drop row.offset «record».now) }
{
    front_bytes(back_bytes(record, row.offset as usize), row.size as usize)
}

// What an item was and is: a line of its name, a word or two, the old content and the new.
pub(crate) fn change(
    rt: HostRuntime,
    description: &[u8],
    places: &[u32],
    v: usize,
    what: &[u8],
    old: &[u8],
    new: &[u8],
) {
    let mut line = [0u8; LINE];
    let end = put_change(
        &mut line,
        0,
        item_name(description, places, v),
        what,
        old,
        new,
    );
    text(&rt.stdout(), front_bytes(&line, end));
}
