// A picture in a text.
ghost use Rattle.std.specs.Prelude.{◌≡◌, ◌≤◌, length};
ghost use Rattle.description.specs.Stages.{picture_at};
ghost use Rattle.pictures.specs.Drawings.{sketch, cap_pictured};

use crate::drawings::{draw_byte, drawn_end};
use crate::{Drawn, Sketch};
use description::Pictured;
use text_bytes::blanks::next_ink;
use words::names::period_at;

// A picture as far as it goes on.
fn sketched(rest: &[u8]) -> Sketch
    ensures { result ≡ sketch rest.now }
{
    let mut d = Drawn::Nothing;
    for (k, b) in rest.iter().enumerate() {
        match draw_byte(d, *b) {
            Some(e) => d = e,
            None => return Sketch { len: k, drawn: d },
        }
    }
    Sketch {
        len: rest.len(),
        drawn: d,
    }
}

// The picture of an item, after a blank at n, or the first faulty byte. Its counts stop at 131,072.
pub fn picture_at(text: &[u8], n: usize) -> Result<Pictured, usize>
    requires { (n ≤ length text.now) × (length text.now ≤ 4096) }
    ensures { result ≡ cap_pictured (picture_at text.now n) }
{
    let p = next_ink(text, n);
    if p == n {
        return Err(n);
    }
    let s = sketched(&text[p..]);
    let d = s.drawn;
    let k = p + s.len;
    drawn_end(d, k, period_at(text, k))
}
