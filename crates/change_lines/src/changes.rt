// An item in two copies side by side.
ghost use Rattle.lines.specs.Parts.{PutsLine};
ghost use Rattle.change_lines.specs.Changes.{change_line, merged_line};

use crate::contents::put_content;
use lines::text::{put, put_column};
use number_lines::numbers::put_number;

// An item's name, a word or two of what became of it, the old content and the new.
pub fn put_change(
    out: &mut [u8],
    at: usize,
    name: &[u8],
    what: &[u8],
    old: &[u8],
    new: &[u8],
) -> usize
    ensures { PutsLine out.old at (change_line name.now what.now old.now new.now) result out.new }
{
    let named = put_column(out, at, name, 31);
    let said = put_column(out, named, what, 20);
    let first = put_content(out, said, old);
    let arrow = put(out, first, b" -> ");
    let second = put_content(out, arrow, new);
    put(out, second, b"\n")
}

// Where the merged copy went, and how many items are contested.
pub fn put_merged(out: &mut [u8], at: usize, file: &[u8], contested: usize) -> usize
    ensures { PutsLine out.old at (merged_line file.now contested) result out.new }
{
    let lead = put(out, at, b"merged to ");
    let named = put(out, lead, file);
    let middle = put(out, named, b", contested items: ");
    let figure = put_number(out, middle, contested);
    put(out, figure, b"\n")
}
