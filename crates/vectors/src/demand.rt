// Demand 3 on a case, by the calls themselves: where a plan is written, its run answers and counts as judge does, expand succeeds, and the
// expanded form, if at most 256 tokens, has the same plan. It holds on every case: that is promised here, and tried on what is compiled.
ghost use Rattle.std.specs.Prelude.{◌≡◌, true};
ghost use Rattle.vectors.specs.Parts.{lent_in, tokens_in};
ghost use Rattle.vectors.specs.Sums.{SameNumbers};
ghost use Rattle.vectors.specs.Kept.{HasPlan, FormHasPlan, Kept};

use crate::answer::{of_judged, same};
use crate::lent;
use crate::parts::{TOKENS, part};
use fronts::front;

// Room for every expanded form (634 tokens) and every plan.
const ENOUGH: usize = 640;

fn same_numbers(one: &[u32], other: &[u32]) -> bool
    ensures { SameNumbers one.now other.now result }
{
    one == other
}

fn has_plan(words: &[u32], bytes: &[u8], tokens: &[u32], rows: &[u32]) -> bool
    ensures { HasPlan (lent_in words.now bytes.now) tokens.now rows.now → result ≡ true }
{
    let mut again = [0u32; ENOUGH];
    let planned = lent::plan(words, bytes, tokens, &mut again);
    match planned {
        Ok(n) => same_numbers(front(&again, n), rows),
        Err(_) => false,
    }
}

fn expanded_has_plan(words: &[u32], bytes: &[u8], rows: &[u32]) -> bool
    ensures { FormHasPlan (lent_in words.now bytes.now) (tokens_in words.now) rows.now → result ≡ true }
{
    let mut form = [0u32; ENOUGH];
    let expanded = lent::expand(words, bytes, &mut form);
    match expanded {
        Ok(n) => {
            if n > 256 {
                return true;
            }
            has_plan(words, bytes, front(&form, n), rows)
        }
        Err(_) => false,
    }
}

fn of_plan<'a>(words: &[u32], bytes: &'a [u8], record: &'a [u8], rows: &[u32]) -> bool
    ensures { Kept words.now bytes.now «record».now rows.now → result ≡ true }
{
    let judged = lent::judge(words, bytes, record);
    let ran = lent::run(words, bytes, rows, record);
    if same(of_judged(ran), of_judged(judged)) {
        return expanded_has_plan(words, bytes, rows);
    }
    false
}

pub(crate) fn holds<'a>(words: &[u32], bytes: &'a [u8], record: &'a [u8]) -> bool
    ensures { result ≡ true }
{
    let mut rows = [0u32; ENOUGH];
    let planned = lent::plan(words, bytes, part(words, TOKENS), &mut rows);
    match planned {
        Ok(n) => of_plan(words, bytes, record, front(&rows, n)),
        Err(_) => true,
    }
}
