// The name at a place.
ghost use Rattle.std.specs.Prelude.{◌≡◌, length, drop};
ghost use Rattle.spelling.specs.Names.{leading};

use text_bytes::bytes::is_name_byte;

// The text from a place on.
pub(crate) fn rest_from(text: &[u8], place: u32) -> &[u8]
    ensures { result.now ≡ drop place text.now }
{
    let at = (place as usize).min(text.len());
    &text[at..]
}

// How far the name at the head of these bytes goes.
#[tactic(auto, using(crate::proofs::Finding::leading_stopped))]
fn name_length(rest: &[u8]) -> usize
    ensures { result ≡ length (leading rest.now) }
{
    for (k, b) in rest.iter().enumerate() {
        if !is_name_byte(*b) {
            return k;
        }
    }
    rest.len()
}

// The name or FILLER at a place.
pub fn name_part(text: &[u8], place: u32) -> &[u8]
    ensures { result.now ≡ leading (drop place text.now) }
{
    let rest = rest_from(text, place);
    let n = name_length(rest);
    &rest[..n]
}
