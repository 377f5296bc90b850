// Which tokens there are, and which are operands.
ghost use Rattle.std.specs.Prelude.{◌≡◌};
ghost use Rattle.tables.specs.Tokens.{is_item, is_literal, token_there};

use tables::tokens::{ITEM, LITERAL, NAME, SPAN, SWITCH_OFF, SWITCH_ON, WORD};

// Whether there is such a token, by the number of rows of each table. `off`: the rules have the switch-off words.
pub fn token_there(off: bool, token: u32, items: usize, literals: usize, names: usize) -> bool
    ensures { result ≡ token_there off items literals names token }
{
    let v = (token % SPAN) as usize;
    match token / SPAN {
        ITEM => v < items,
        LITERAL => v < literals,
        SWITCH_ON => v <= 7,
        SWITCH_OFF => off & (v <= 7),
        WORD => v <= 16,
        NAME => v < names,
        _ => false,
    }
}

pub fn is_item(token: u32) -> bool
    ensures { result ≡ is_item token }
{
    token / SPAN == ITEM
}

pub fn is_literal(token: u32) -> bool
    ensures { result ≡ is_literal token }
{
    token / SPAN == LITERAL
}
