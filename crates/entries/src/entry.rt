// A whole entry.
ghost use Rattle.std.specs.Prelude.{◌≡◌, ◌≤◌, ◌<◌, ◌+◌, length};
ghost use Rattle.entries.specs.Entries.{entry_at, named_at, item_at, cap_entry};

use crate::clauses::clauses_at;
use crate::{EntryRead, Noted};
use content::Row;
use description::{Called, Leveled};
use levels::level::level_at;
use levels::open::enter;
use text_bytes::blanks::next_ink;
use words::names::name_at;

fn narrow(n: usize) -> u32
    requires { n ≤ 4096 }
    ensures { result ≡ n }
{
    n as u32
}

// An item whose name ends at k.
fn item_at(
    text: &[u8],
    level: u32,
    depth: usize,
    place: u32,
    named: u32,
    k: usize,
) -> Result<EntryRead, usize>
    requires { (k ≤ length text.now) × (length text.now ≤ 4096) }
    ensures { result ≡ cap_entry (item_at text.now level depth place named k) }
{
    let x = clauses_at(text, k)?;
    let noted = Noted {
        level,
        place,
        named,
        kind: x.kind,
        size: x.size,
        scale: x.scale,
        digits: x.digits,
    };
    Ok(EntryRead::Whole {
        noted,
        depth,
        end: x.end,
    })
}

// An entry whose level number stands at p.
fn named_at(text: &[u8], level: u32, depth: usize, p: usize) -> Result<EntryRead, usize>
    requires { (p + 2 ≤ length text.now) × (length text.now ≤ 4096) }
    ensures { result ≡ cap_entry (named_at text.now level depth p) }
{
    let place = narrow(p);
    let named = narrow(next_ink(text, p + 2));
    match name_at(level, text, p + 2)? {
        Called::Item(k) => item_at(text, level, depth, place, named, k),
        Called::Group(end) => {
            let noted = Noted {
                level,
                place,
                named,
                kind: Row::GROUP,
                size: 0,
                scale: 0,
                digits: 0,
            };
            Ok(EntryRead::Whole { noted, depth, end })
        }
    }
}

// The entry at p, or the first faulty byte. `named`: 88 may stand here.
pub fn entry_at(
    stack: &[u32],
    depth: usize,
    waiting: u32,
    named: bool,
    text: &[u8],
    p: usize,
) -> Result<EntryRead, usize>
    requires { (depth ≤ length stack.now) × ((p < length text.now) × (length text.now ≤ 4096)) }
    ensures { result ≡ cap_entry (entry_at stack.now depth waiting named text.now p) }
{
    match level_at(stack, depth, waiting, named, text, p)? {
        Leveled::Level(level) => match enter(stack, depth, waiting, level) {
            Some(d) => named_at(text, level, d, p),
            None => Err(p),
        },
        Leveled::Name => Ok(EntryRead::Name),
    }
}
