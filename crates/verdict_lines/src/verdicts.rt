// What a rule says of a record: its verdict, or where it stops and on what.
ghost use Rattle.lines.specs.Put.{Puts};
ghost use Rattle.lines.specs.Parts.{PutsLine};
ghost use Rattle.verdict_lines.specs.Verdicts.{truth_word, judged_line, verdict_lines, stop_lines};

use lines::text::put;
use number_lines::numbers::{put_hex, put_number};

fn put_truth(out: &mut [u8], at: usize, truth: bool) -> usize
    ensures { Puts out.old at (truth_word truth) result out.new }
{
    if truth {
        return put(out, at, b"TRUE\n");
    }
    put(out, at, b"FALSE\n")
}

// How many conditions were judged.
pub fn put_judged(out: &mut [u8], at: usize, count: usize) -> usize
    ensures { PutsLine out.old at (judged_line count) result out.new }
{
    let lead = put(out, at, b"conditions judged: ");
    let figure = put_number(out, lead, count);
    put(out, figure, b"\n")
}

pub fn put_verdict(out: &mut [u8], at: usize, truth: bool, count: usize) -> usize
    ensures { PutsLine out.old at (verdict_lines truth count) result out.new }
{
    let said = put_truth(out, at, truth);
    put_judged(out, said, count)
}

// The condition that a rule stops at, the item, the byte of the record and what that holds.
pub fn put_stop(
    out: &mut [u8],
    at: usize,
    condition: &[u8],
    item: &[u8],
    byte: usize,
    held: u8,
) -> usize
    ensures { PutsLine out.old at (stop_lines condition.now item.now byte held) result out.new }
{
    let lead = put(out, at, b"the rule stops at: ");
    let asked = put(out, lead, condition);
    let second = put(out, asked, b"\nat ");
    let named = put(out, second, item);
    let middle = put(out, named, b", byte ");
    let place = put_number(out, middle, byte);
    let then = put(out, place, b" of the record, which holds hex ");
    let content = put_hex(out, then, held);
    put(out, content, b"\n")
}
