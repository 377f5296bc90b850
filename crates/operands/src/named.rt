// What an operand token names.
ghost use Rattle.std.specs.Prelude.{◌≡◌, true, []};
ghost use Rattle.tables.specs.Operands.{lend, operand_sound, row_of, operand_bytes, Within};

use content::Row;
use tables::rows::{row_at, row_part};
use tables::tokens::{ITEM, SPAN};

// The row of an operand: of the item table, or of the literal table.
pub fn row_of(token: u32, items: &[u32], literals: &[u32]) -> Row
    requires { operand_sound (lend items.now literals.now []) token ≡ true }
    ensures { result ≡ row_of (lend items.now literals.now []) token }
{
    let v = (token % SPAN) as usize;
    if token / SPAN == ITEM {
        return row_at(items, v);
    }
    row_at(literals, v)
}

// The bytes of an operand: a part of the record for an item, of the literal bytes for a literal.
pub fn operand_bytes<'a>(
    token: u32,
    items: &[u32],
    literals: &[u32],
    bytes: &'a [u8],
    record: &'a [u8],
) -> &'a [u8]
    requires { Within (lend items.now literals.now bytes.now) «record».now token }
    ensures { result.now ≡ operand_bytes (lend items.now literals.now bytes.now) «record».now token }
{
    let row = row_of(token, items, literals);
    if token / SPAN == ITEM {
        return row_part(row, record);
    }
    row_part(row, bytes)
}
