// Refusals 1 to 9 and 18 in order, and the rows of a condition that none of them refuses.
ghost use Rattle.std.specs.Prelude.{◌≡◌, ◌≤◌, length};
ghost use Rattle.tables.specs.Operands.{lend_names, under};
ghost use Rattle.tables.specs.Refusals.{first_of};
ghost use Rattle.rules.specs.Calls.{token_lines};
ghost use Rattle.preparer.specs.Prepared.{Prepares};

use crate::lent::check_lent;
use resolver::resolve;
use tables::Refusal;
use token_checks::tokens::{check_token_count, check_tokens};

// 1 to 6, and 18 just after 4. `off`, here and below: the rules have the switch-off words.
fn check_lines(
    off: bool,
    items: &[u32],
    literals: &[u32],
    bytes: &[u8],
    names: &[u32],
    tokens: &[u32],
) -> Result<(), Refusal>
    ensures { result ≡ first_of (token_lines (under off (lend_names items.now literals.now bytes.now names.now)) tokens.now) }
{
    check_lent(items, literals, bytes, names)?;
    check_token_count(tokens)?;
    check_tokens(off, items, literals, names, tokens)
}

// 1 to 9 and 18; the number of the condition's rows where none refuses.
pub fn prepare(
    off: bool,
    items: &[u32],
    literals: &[u32],
    bytes: &[u8],
    names: &[u32],
    tokens: &[u32],
    rows: &mut [u32],
) -> Result<usize, Refusal>
    requires { 640 ≤ length rows.old }
    ensures { Prepares (under off (lend_names items.now literals.now bytes.now names.now)) tokens.now result rows.old rows.new }
{
    check_lines(off, items, literals, bytes, names, tokens)?;
    resolve(items, literals, tokens, rows)
}
