// What has been read of a literal, as a number: 0 nothing; 1 a sign; 2 digits; 3 digits and a point;
// 4 a point with no digit before it; 5 digits after a point; 6 bytes in quotes; 7 a quote that closes
// or is the first of two; 8 no literal.
ghost use Rattle.std.specs.Prelude.{◌≡◌};
ghost use Rattle.literal_spans.specs.Steps.{point_step, first_step, step, spelled_far, spelled_state};

use crate::Span;
use text_bytes::bytes::is_digit;

fn point_step(state: u32) -> u32
    ensures { result ≡ point_step state }
{
    if state == 2 {
        return 3;
    }
    if state <= 1 {
        return 4;
    }
    8
}

// A byte that is no digit and no point, outside quotes: it may be the first.
fn first_step(state: u32, b: u8) -> u32
    ensures { result ≡ first_step state b }
{
    if state != 0 {
        return 8;
    }
    if (b == 0x2b) | (b == 0x2d) {
        return 1;
    }
    if b == 0x22 {
        return 6;
    }
    8
}

fn step(state: u32, b: u8) -> u32
    ensures { result ≡ step state b }
{
    if state == 6 {
        if b == 0x22 {
            return 7;
        }
        return 6;
    }
    if state == 7 {
        if b == 0x22 {
            return 6;
        }
        return 8;
    }
    if is_digit(b) {
        if state <= 2 {
            return 2;
        }
        return 5;
    }
    if b == 0x2e {
        return point_step(state);
    }
    first_step(state, b)
}

// How many bytes may begin a literal.
pub(crate) fn spell(rest: &[u8]) -> Span
    ensures { (result.length ≡ spelled_far 0 rest.now) × (result.state ≡ spelled_state 0 rest.now) }
{
    let mut state: u32 = 0;
    for (k, b) in rest.iter().enumerate() {
        let next = step(state, *b);
        if next == 8 {
            return Span { length: k, state };
        }
        state = next;
    }
    Span {
        length: rest.len(),
        state,
    }
}
