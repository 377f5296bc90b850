// What is lent to every call.
ghost use Rattle.std.specs.Prelude.{◌≡◌};
ghost use Rattle.tables.specs.Operands.{lend_names};
ghost use Rattle.tables.specs.Refusals.{first_of};
ghost use Rattle.values.specs.Names.{lent_lines};

use checks::lent::check_tables;
use name_tables::check_names;
use tables::Refusal;

// 1 to 4 and 18.
pub fn check_lent(
    items: &[u32],
    literals: &[u32],
    bytes: &[u8],
    names: &[u32],
) -> Result<(), Refusal>
    ensures { result ≡ first_of (lent_lines (lend_names items.now literals.now bytes.now names.now)) }
{
    // Not `?`: must-fail/table_let_pass answers otherwise here.
    if let Err(refusal) = check_tables(items, literals, bytes) {
        return Err(refusal);
    }
    check_names(items, literals, bytes, names)
}
