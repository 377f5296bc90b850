// The lines of the table of refusals that look at tokens: 5 and 6.
ghost use Rattle.std.specs.Prelude.{◌≡◌, []};
ghost use Rattle.tables.specs.Operands.{lend_names, under};
ghost use Rattle.tables.specs.Tables.{token_count_check, token_check};

use content::Row;
use operands::tokens::token_there;
use tables::Refusal;
use tables::rows::NAME_WIDTH;

// 5: a condition has 1 to 256 tokens.
pub fn check_token_count(tokens: &[u32]) -> Result<(), Refusal>
    ensures { result ≡ token_count_check tokens.now }
{
    if (1 <= tokens.len()) & (tokens.len() <= 256) {
        return Ok(());
    }
    Err(Refusal::TokenCount)
}

// 6: the first token that there is not. `off`: the rules have the switch-off words.
pub fn check_tokens(
    off: bool,
    items: &[u32],
    literals: &[u32],
    names: &[u32],
    tokens: &[u32],
) -> Result<(), Refusal>
    ensures { result ≡ token_check (under off (lend_names items.now literals.now [] names.now)) tokens.now }
{
    let item_rows = items.len() / Row::WIDTH;
    let literal_rows = literals.len() / Row::WIDTH;
    let name_rows = names.len() / NAME_WIDTH;
    for (i, token) in tokens.iter().enumerate() {
        if !token_there(off, *token, item_rows, literal_rows, name_rows) {
            return Err(Refusal::Token(i));
        }
    }
    Ok(())
}
