// Tokens by class.
ghost use Rattle.std.specs.Prelude.{◌≡◌};
ghost use Rattle.grammar.specs.Grammar.{operand, switch, order, bound, test, name};
ghost use Rattle.simples.specs.Reads.{tok, is_a};

use tables::tokens::{ITEM, LITERAL, NAME, SPAN, SWITCH_OFF, SWITCH_ON};
use tables::words::{EQUAL, GREATER, GREATER_OR_EQUAL, LESS_OR_EQUAL, NUMERIC, ZERO};

// A number that is no token: what stands past the last one.
const END: u32 = 4294967295;

// The token at a place, or END past the last.
pub fn peek(tokens: &[u32], at: usize) -> u32
    ensures { result ≡ tok tokens.now at }
{
    if at < tokens.len() {
        return tokens[at];
    }
    END
}

// > < =
pub fn is_order(token: u32) -> bool
    ensures { result ≡ is_a order token }
{
    (GREATER <= token) & (token <= EQUAL)
}

// >= <=
pub(crate) fn is_bound(token: u32) -> bool
    ensures { result ≡ is_a bound token }
{
    (GREATER_OR_EQUAL <= token) & (token <= LESS_OR_EQUAL)
}

// a class word or a sign word
pub(crate) fn is_test(token: u32) -> bool
    ensures { result ≡ is_a test token }
{
    (NUMERIC <= token) & (token <= ZERO)
}

// an item or a literal, token kinds 0 and 1
pub(crate) fn is_operand(token: u32) -> bool
    ensures { result ≡ is_a operand token }
{
    (token / SPAN == ITEM) | (token / SPAN == LITERAL)
}

// token kinds 2 and 3
pub(crate) fn is_switch(token: u32) -> bool
    ensures { result ≡ is_a switch token }
{
    (token / SPAN == SWITCH_ON) | (token / SPAN == SWITCH_OFF)
}

// a condition-name, token kind 5
pub(crate) fn is_name(token: u32) -> bool
    ensures { result ≡ is_a name token }
{
    token / SPAN == NAME
}
