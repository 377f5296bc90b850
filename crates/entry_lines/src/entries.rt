// An entry of a file that was swept, and all of them together.
ghost use Rattle.lines.specs.Parts.{PutsLine};
ghost use Rattle.entry_lines.specs.Entries.{entry_start, totals_line};

use lines::text::put;
use number_lines::numbers::put_number;

// Before what is said of entry n.
pub fn put_entry(out: &mut [u8], at: usize, n: usize) -> usize
    ensures { PutsLine out.old at (entry_start n) result out.new }
{
    let lead = put(out, at, b"entry ");
    let figure = put_number(out, lead, n);
    put(out, figure, b": ")
}

// How many entries there were, and of what kind.
pub fn put_totals(
    out: &mut [u8],
    at: usize,
    entries: usize,
    held: usize,
    failed: usize,
    stopped: usize,
) -> usize
    ensures { PutsLine out.old at (totals_line entries held failed stopped) result out.new }
{
    let all = put_number(out, at, entries);
    let first = put(out, all, b" entries: ");
    let true_ones = put_number(out, first, held);
    let second = put(out, true_ones, b" true, ");
    let false_ones = put_number(out, second, failed);
    let third = put(out, false_ones, b" false, ");
    let stops = put_number(out, third, stopped);
    put(out, stops, b" stopped\n")
}
