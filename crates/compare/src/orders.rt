// Which orders a relation word and a sign word accept.
ghost use Rattle.std.specs.Prelude.{◌≡◌};
ghost use Rattle.compare.specs.Order.{order, relation_holds, sign_holds};

use content::relations::{EQUAL, GREATER, GREATER_OR_EQUAL, LESS, NEGATIVE, POSITIVE};
use std::cmp::Ordering;

pub fn order_of(a: u64, b: u64) -> Ordering
    ensures { result ≡ order a b }
{
    a.cmp(&b)
}

pub fn relation_holds(word: u32, o: Ordering) -> bool
    ensures { result ≡ relation_holds word o }
{
    match word {
        GREATER => o.is_gt(),
        LESS => o.is_lt(),
        EQUAL => o.is_eq(),
        GREATER_OR_EQUAL => !o.is_lt(),
        _ => !o.is_gt(),
    }
}

pub fn sign_holds(word: u32, o: Ordering) -> bool
    ensures { result ≡ sign_holds word o }
{
    match word {
        POSITIVE => o.is_gt(),
        NEGATIVE => o.is_lt(),
        _ => o.is_eq(),
    }
}
