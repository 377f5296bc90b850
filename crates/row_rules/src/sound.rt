// What makes a row sound.
ghost use Rattle.std.specs.Prelude.{◌≡◌, ◌+◌, ◌<◌, ◌&&◌, eqb, leb};
ghost use Rattle.tables.specs.Rows.{row_sound};

use content::Row;

// What groups and characters have: a size, and neither scale nor digits.
fn plain_sound(row: Row, most: u32) -> bool
    ensures { result ≡ leb 1 row.size && leb row.size most && eqb row.scale 0 && eqb row.digits 0 }
{
    (1 <= row.size) & (row.size <= most) & (row.scale == 0) & (row.digits == 0)
}

// A number of so many bytes, its digits not too many.
fn number_sound(row: Row, size: u32) -> bool
    ensures { result ≡ leb 1 row.digits && leb row.scale row.digits && eqb row.size size }
{
    (1 <= row.digits) & (row.scale <= row.digits) & (row.size == size)
}

// Every row is looked at in each call: one match on its kind costs less than asking for each kind in turn.
pub fn row_sound(row: Row) -> bool
    ensures { result ≡ row_sound row }
{
    if 65535 < row.offset {
        return false;
    }
    if 18 < row.digits {
        return false;
    }
    let kind = row.kind;
    match kind {
        Row::GROUP | Row::UNSIGNED_GROUP => plain_sound(row, 65535),
        Row::ALPHABETIC | Row::ALPHANUMERIC => plain_sound(row, 256),
        Row::UNSIGNED | Row::SIGNED => number_sound(row, row.digits),
        Row::SIGN_LEADING | Row::SIGN_TRAILING => number_sound(row, row.digits + 1),
        Row::PACKED | Row::PACKED_UNSIGNED => number_sound(row, row.digits / 2 + 1),
        _ => false,
    }
}
