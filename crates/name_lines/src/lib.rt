// The heading over a table of items, and a condition-name with its values under its item.
#![tactic(auto)]

ghost use Rattle.std.specs.Prelude.{◌≡◌};
ghost use Rattle.lines.specs.Put.{Puts};
ghost use Rattle.name_lines.specs.Names.{heading, name_shown, value_shown};

use lines::text::put;

pub fn put_heading(out: &mut [u8], at: usize) -> usize
    ensures { Puts out.old at heading result out.new }
{
    put(
        out,
        at,
        b"row  name                            kind                     offset  size   digits  scale\n",
    )
}

// The name, before its values.
pub fn put_name(out: &mut [u8], at: usize, name: &[u8]) -> usize
    ensures { Puts out.old at (name_shown name.now) result out.new }
{
    let level = put(out, at, b"       88 ");
    let named = put(out, level, name);
    put(out, named, b" VALUE")
}

// One value, or a range of them.
pub fn put_value(out: &mut [u8], at: usize, low: &[u8], high: &[u8], range: bool) -> usize
    ensures { Puts out.old at (value_shown low.now high.now range) result out.new }
{
    let parted = put(out, at, b" ");
    let first = put(out, parted, low);
    if !range {
        return put(out, first, b"");
    }
    let through = put(out, first, b" THRU ");
    put(out, through, high)
}
