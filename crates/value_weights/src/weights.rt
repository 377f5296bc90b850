// Whether a value is barred.
ghost use Rattle.std.specs.Prelude.{◌≡◌, true, false, ◌-◌, length, take, drop};
ghost use Rattle.description.specs.Limits.{barred_alone};
ghost use Rattle.description.specs.Stages.{literal_in};
ghost use Rattle.literal_pairs.specs.Spelling.{Written};
ghost use Rattle.condition_names.specs.Values.{Stands, value_of};
ghost use Rattle.value_weights.specs.Weights.{shown, weighed};

use crate::Weighed;
use condition_names::Found;
use content::Row;
use literal_pairs::pairs::{may_compare, unlike};
use literal_rows::literals::literal_row;
use ranges::ends::exceeds;

// The high end of a range whose low end may stand.
fn weigh_high(text: &[u8], item: Row, low: Row, found: Found) -> Weighed
    requires stands { Stands text.now found × (found.range ≡ true) }
    requires written { Written (take (found.mid - found.low) (drop found.low text.now)) low }
    requires mid_value { barred_alone (shown item) (literal_in text.now found.low found.mid) ≡ false }
    ensures { result ≡ weighed item (value_of text.now found) }
{
    let at = found.low;
    let mid = found.mid;
    let from = found.high;
    let end = found.end;
    match literal_row(&text[from..end]) {
        Some(high) => {
            if !may_compare(item, high) | unlike(low, high) {
                return Weighed::Barred;
            }
            if exceeds(low, &text[at..mid], high, &text[from..end]) {
                return Weighed::Barred;
            }
            Weighed::Range(low, high)
        }
        None => Weighed::Barred,
    }
}

// The rows of a value's ends, unless it is barred.
pub fn weigh(text: &[u8], item: Row, found: Found) -> Weighed
    requires { Stands text.now found }
    ensures { result ≡ weighed item (value_of text.now found) }
{
    let at = found.low;
    let mid = found.mid;
    match literal_row(&text[at..mid]) {
        Some(low) => {
            if !may_compare(item, low) {
                return Weighed::Barred;
            }
            if found.range {
                return weigh_high(text, item, low, found);
            }
            Weighed::Single(low)
        }
        None => Weighed::Barred,
    }
}
