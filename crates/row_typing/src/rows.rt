// Typing: refusal 9.
ghost use Rattle.std.specs.Prelude.{◌≡◌, [], ◌+◌, ◌<◌};
ghost use Rattle.tables.specs.Operands.{lend};
ghost use Rattle.grammar.specs.Typed.{typed_rows, Shaped};

use plan_rows::rows::plan_row;
use tables::Refusal;
use typing::sides::well_typed;

// 9: the first of so many rows whose simple condition is not well typed.
pub fn check_typing(
    items: &[u32],
    literals: &[u32],
    rows: &[u32],
    count: usize,
) -> Result<(), Refusal>
    requires { Shaped (lend items.now literals.now []) rows.now count }
    ensures { result ≡ typed_rows (lend items.now literals.now []) rows.now count }
{
    for k in 0..count {
        let row = plan_row(rows, k);
        if !well_typed(items, literals, row.subject, row.relation, row.object) {
            return Err(Refusal::Typing(k));
        }
    }
    Ok(())
}
