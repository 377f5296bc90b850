// Rows that may stand beside each other.
ghost use Rattle.std.specs.Prelude.{◌≡◌, ◌&&◌};
ghost use Rattle.typing.specs.Typing.{fits_beside, side_fits};
ghost use Rattle.literal_pairs.specs.Spelling.{unlike_rows};

use content::Row;
use content::rows::is_packed;
use tables::rows::is_numeric;

fn fits_beside(row: Row) -> bool
    ensures { result ≡ fits_beside row }
{
    (row.scale == 0) & !is_packed(row)
}

fn side_fits(side: Row, other: Row) -> bool
    ensures { result ≡ side_fits side other }
{
    !is_numeric(side) | is_numeric(other) | fits_beside(side)
}

// Whether an item and a literal may be compared.
pub fn may_compare(item: Row, literal: Row) -> bool
    ensures { result ≡ (side_fits item literal && side_fits literal item) }
{
    side_fits(item, literal) & side_fits(literal, item)
}

// Whether one end only is numeric.
pub fn unlike(low: Row, high: Row) -> bool
    ensures { result ≡ unlike_rows low high }
{
    if is_numeric(low) {
        return !is_numeric(high);
    }
    is_numeric(high)
}
