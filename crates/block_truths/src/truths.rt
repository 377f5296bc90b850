// The truths that a relation tells, 0 and 1, of a test of two words or of their order.
ghost use Rattle.std.specs.Prelude.{◌≡◌, cond};
ghost use Rattle.values.specs.Truth.{turned};
ghost use Rattle.block_truths.specs.Columns.{bit, coded, bits_of, order_bits};

use crate::{Bits, OrderBits};
use digit_words::Asked;
use places::choose;

fn pick(test: bool, first: bool, second: bool) -> bool
    ensures { result ≡ cond test first second }
{
    if test { first } else { second }
}

// A truth, exchanged where NOT belongs to the word.
fn truth_bit(negated: bool, holds: bool) -> u8
    ensures { result ≡ bit (turned negated holds) }
{
    if negated {
        return choose(holds, 0, 1);
    }
    choose(holds, 1, 0)
}

// The truth of what a relation asks, where the first word is less, the same, or more.
fn code(asked: Asked, less: bool, same: bool, more: bool) -> u8
    ensures { result ≡ coded asked less same more }
{
    let found = pick(asked.equal, same, pick(asked.second, more, less));
    truth_bit(asked.turned, found)
}

// The truths of a test that NOT may turn.
pub fn bits_of(negated: bool) -> Bits
    ensures { result ≡ bits_of negated }
{
    Bits {
        holds: truth_bit(negated, true),
        fails: truth_bit(negated, false),
    }
}

// The truths of a relation by the order of its sides; or, exchanged, of the second beside the first.
pub fn order_bits(asked: Asked, exchanged: bool) -> OrderBits
    ensures { result ≡ order_bits asked exchanged }
{
    OrderBits {
        less: code(asked, !exchanged, false, exchanged),
        same: code(asked, false, true, false),
        more: code(asked, exchanged, false, !exchanged),
    }
}
