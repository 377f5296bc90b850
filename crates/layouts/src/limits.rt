// Whether a row passes a limit.
ghost use Rattle.std.specs.Prelude.{◌≡◌};
ghost use Rattle.description.specs.Limits.{most, over};
ghost use Rattle.layouts.specs.Layouts.{shown_row};

use crate::ItemRow;
use content::Row;

fn most_of(kind: u32) -> usize
    ensures { result ≡ most kind }
{
    if (kind == Row::GROUP) | (kind == Row::UNSIGNED_GROUP) {
        return 65535;
    }
    if (kind == Row::ALPHABETIC) | (kind == Row::ALPHANUMERIC) {
        return 256;
    }
    if (kind == Row::UNSIGNED) | (kind == Row::SIGNED) {
        return 18;
    }
    19
}

// Whether the row with i rows before it passes a limit.
pub(crate) fn is_over(i: usize, row: ItemRow) -> bool
    ensures { result ≡ over i (shown_row row) }
{
    let most = most_of(row.kind);
    (64 <= i) | (!(row.size <= most) | !(row.offset <= 65535) | !(row.digits <= 18))
}
