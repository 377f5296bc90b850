// Refusal 8: 17 brackets open at once.
#![tactic(auto)]

ghost use Rattle.std.specs.Prelude.{◌≡◌, cond, suc, pred, ◌<◌, eqb};
ghost use Rattle.grammar.specs.Depth.{depth_check};
ghost use Rattle.tables.specs.Words.{OPEN as LEFT, CLOSE as RIGHT};

use tables::Refusal;
use tables::words::{CLOSE, OPEN};

// How many brackets are open after a token. A ")" too many opens nothing.
fn opened_after(opened: usize, token: u32) -> usize
    requires { opened < 4096 }
    ensures { result ≡ cond (eqb token LEFT) (suc opened) (cond (eqb token RIGHT) (pred opened) opened) }
{
    if token == OPEN {
        return opened + 1;
    }
    if (token == CLOSE) & (0 < opened) {
        return opened - 1;
    }
    opened
}

// The first "(" that makes 17 open.
pub fn check_depth(tokens: &[u32]) -> Result<(), Refusal>
    ensures { result ≡ depth_check tokens.now }
{
    let mut opened: usize = 0;
    for (at, token) in tokens.iter().enumerate() {
        if (*token == OPEN) & (opened == 16) {
            return Err(Refusal::Depth(at));
        }
        opened = opened_after(opened, *token);
    }
    Ok(())
}
