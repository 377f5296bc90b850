// A literal after a blank.
ghost use Rattle.std.specs.Prelude.{◌≡◌, ◌≤◌, length};
ghost use Rattle.description.specs.Stages.{spelled_at};
ghost use Rattle.literal_spans.specs.Steps.{whole_state};

use crate::steps::spell;
use description::Spelled;
use text_bytes::blanks::next_ink;
use words::names::period_at;

fn is_whole(state: u32) -> bool
    ensures { result ≡ whole_state state }
{
    (state == 2) | (state == 5) | (state == 7)
}

// The literal after a blank at n, or the first faulty byte. The point of digits and a point was the period.
pub fn spelled_at(text: &[u8], n: usize) -> Result<Spelled, usize>
    requires { n ≤ length text.now }
    ensures { result ≡ spelled_at text.now n }
{
    let p = next_ink(text, n);
    if p == n {
        return Err(n);
    }
    let span = spell(&text[p..]);
    let k = p + span.length;
    if is_whole(span.state) {
        if period_at(text, k) {
            return Ok(Spelled::Ended(k));
        }
        return Ok(Spelled::Open(k));
    }
    if span.state == 3 {
        return Ok(Spelled::Ended(k - 1));
    }
    Err(k)
}
