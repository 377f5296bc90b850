// The token at which a simple condition starts.
ghost use Rattle.std.specs.Prelude.{◌≡◌};
ghost use Rattle.positions.specs.Positions.{is_connective, leads_in, starts_here, left_after, condition_token};

use tables::words::{AND, NOT, OPEN, OR};

// AND or OR.
fn is_connective(token: u32) -> bool
    ensures { result ≡ is_connective token }
{
    (token == AND) | (token == OR)
}

// An opening bracket or NOT.
fn leads_in(token: u32) -> bool
    ensures { result ≡ leads_in token }
{
    (token == OPEN) | (token == NOT)
}

// Whether the next simple condition but `left` starts with this token.
fn starts_here(left: usize, token: u32) -> bool
    ensures { result ≡ starts_here left token }
{
    if left == 0 {
        return !leads_in(token);
    }
    false
}

// How many simple conditions are left to be passed after this token.
fn left_after(left: usize, token: u32) -> usize
    ensures { result ≡ left_after left token }
{
    if left == 0 {
        return 0;
    }
    if is_connective(token) {
        return left - 1;
    }
    left
}

// The first token of simple condition k; the count of tokens where there are fewer conditions.
pub(crate) fn condition_token(tokens: &[u32], k: usize) -> usize
    ensures { result ≡ condition_token k tokens.now }
{
    let mut left = k;
    for (i, token) in tokens.iter().enumerate() {
        if starts_here(left, *token) {
            return i;
        }
        left = left_after(left, *token);
    }
    tokens.len()
}
