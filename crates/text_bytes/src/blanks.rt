// Blanks between words.
ghost use Rattle.std.specs.Prelude.{◌≡◌};
ghost use Rattle.description.specs.Stages.{inked};

use crate::bytes::is_blank;

// The first place from n on that holds no blank, or the end.
pub fn next_ink(text: &[u8], n: usize) -> usize
    ensures { result ≡ inked text.now n }
{
    for k in n..text.len() {
        if !is_blank(text[k]) {
            return k;
        }
    }
    n.max(text.len())
}
