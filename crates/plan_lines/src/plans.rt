// A plan's row.
ghost use Rattle.lines.specs.Parts.{PutsLine};
ghost use Rattle.plan_lines.specs.Plans.{target_shown, plan_line};

use lines::text::{put, put_column};
use number_lines::numbers::{put_number, put_number_column};

// Where a plan goes next.
fn put_target(out: &mut [u8], at: usize, target: u32) -> usize
    ensures { PutsLine out.old at (target_shown target) result out.new }
{
    if target == 65535 {
        return put(out, at, b"TRUE");
    }
    if target == 65534 {
        return put(out, at, b"FALSE");
    }
    let lead = put(out, at, b"row ");
    put_number(out, lead, target as usize)
}

// Its number, its condition in words, and where it goes where that is true and where it is false.
pub fn put_plan_row(
    out: &mut [u8],
    at: usize,
    k: usize,
    words: &[u8],
    holds: u32,
    fails: u32,
) -> usize
    ensures { PutsLine out.old at (plan_line k words.now holds fails) result out.new }
{
    let lead = put(out, at, b"row ");
    let number = put_number_column(out, lead, k, 5);
    let asked = put_column(out, number, words, 40);
    let first = put(out, asked, b" true -> ");
    let true_way = put_target(out, first, holds);
    let second = put(out, true_way, b", false -> ");
    let false_way = put_target(out, second, fails);
    put(out, false_way, b"\n")
}
