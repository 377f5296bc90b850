// Words that are asked for.
ghost use Rattle.std.specs.Prelude.{◌≡◌, ◌≤◌, length};
ghost use Rattle.description.specs.Stages.{common, literal_at};

use text_bytes::blanks::next_ink;

// How many bytes the two have in common at their beginning.
fn common_length(word: &[u8], rest: &[u8]) -> usize
    ensures { result ≡ common word.now rest.now }
{
    for (k, b) in word.iter().enumerate() {
        if rest.len() <= k {
            return k;
        }
        if rest[k] != *b {
            return k;
        }
    }
    word.len()
}

// This word, after a blank at n: where it ends, or the first byte that it cannot have.
pub fn literal(word: &[u8], text: &[u8], n: usize) -> Result<usize, usize>
    requires { n ≤ length text.now }
    ensures { result ≡ literal_at word.now text.now n }
{
    let p = next_ink(text, n);
    if p == n {
        return Err(n);
    }
    let m = common_length(word, &text[p..]);
    if m == word.len() {
        Ok(p + m)
    } else {
        Err(p + m)
    }
}
