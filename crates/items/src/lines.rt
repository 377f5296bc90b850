// The other lines of the table of refusals that calls over whole records share: 1 and 2 for an item table alone, and 10.
ghost use Rattle.std.specs.Prelude.{◌≡◌};
ghost use Rattle.tables.specs.Refusals.{first_of};
ghost use Rattle.items.specs.Lines.{item_lines, room_check};

use checks::lent::check_tables;
use tables::Refusal;

// 1 and 2.
pub fn check_items(items: &[u32]) -> Result<(), Refusal>
    ensures { result ≡ first_of (item_lines items.now) }
{
    check_tables(items, &items[0..0], &[])
}

// 10: room for what is written.
pub fn check_room(needed: usize, room: usize) -> Result<(), Refusal>
    ensures { result ≡ room_check needed room }
{
    if needed <= room {
        return Ok(());
    }
    Err(Refusal::Room(needed))
}
