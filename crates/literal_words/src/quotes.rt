// Nonnumeric literals: how many bytes a word in quotes holds.
ghost use Rattle.std.specs.Prelude.{◌≡◌, cond, not, ◌&&◌};
ghost use Rattle.spelling.specs.Words.{is_quote};
ghost use Rattle.literal_words.specs.Found.{held_bytes, within_limits, text_found};

// A quote was met, and what follows it is no quote.
fn broken(pending: bool, b: u8) -> bool
    ensures { result ≡ pending && not (is_quote b) }
{
    pending & !(b == 0x22)
}

// The byte is a quote that closes or is the first of two.
fn waits(pending: bool, b: u8) -> bool
    ensures { result ≡ not pending && is_quote b }
{
    !pending & (b == 0x22)
}

fn one_unless(pending: bool) -> usize
    ensures { result ≡ cond pending 0 1 }
{
    if pending {
        return 0;
    }
    1
}

// The bytes after the opening quote.
fn held(bytes: &[u8]) -> Option<usize>
    ensures { result ≡ within_limits (held_bytes bytes.now) }
{
    let mut pending = false;
    let mut n: usize = 0;
    for b in bytes {
        if broken(pending, *b) {
            return None;
        }
        pending = waits(pending, *b);
        n += one_unless(pending);
    }
    if pending & ((1 <= n) & (n <= 256)) {
        return Some(n);
    }
    None
}

// How many bytes the nonnumeric literal holds that a word writes, if it writes one.
pub fn read_text(word: &[u8]) -> Option<usize>
    ensures { result ≡ text_found word.now }
{
    if word.len() == 0 {
        return None;
    }
    if word[0] == 0x22 {
        return held(&word[1..]);
    }
    None
}
