// Entries in a lent buffer, seven numbers each.
ghost use Rattle.std.specs.Prelude.{◌≡◌, ◌+◌, ◌*◌, ◌<◌, ◌≤◌, length};
ghost use Rattle.std.proofs.lemmas.List.Edits.{sets};
ghost use Rattle.noting.specs.Stored.{numbers_of, pushed, waiting_after};

use content::Row;
use entries::Noted;

pub fn store(entries: &mut [u32], i: usize, x: Noted)
    requires { i * 7 + 6 < length entries.old }
    ensures { entries.new ≡ sets entries.old (i * 7) (numbers_of x) }
{
    let at = i * 7;
    entries[at] = x.level;
    entries[at + 1] = x.place;
    entries[at + 2] = x.named;
    entries[at + 3] = x.kind;
    entries[at + 4] = x.size;
    entries[at + 5] = x.scale;
    entries[at + 6] = x.digits;
}

// The level number of the innermost group's members, where a group is open.
pub fn push(stack: &mut [u32], depth: usize, level: u32)
    requires { depth ≤ length stack.old }
    ensures { stack.new ≡ pushed stack.old depth level }
{
    if depth == 0 {
        return;
    }
    stack[depth - 1] = level;
}

pub fn waiting_after(x: Noted) -> u32
    requires { x.level < 4294967295 }
    ensures { result ≡ waiting_after x }
{
    if x.kind == Row::GROUP {
        return x.level + 1;
    }
    0
}
