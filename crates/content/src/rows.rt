// Kinds of a row that belong together: whoever asks for one of them asks here, or `tables::rows`.
ghost use Rattle.std.specs.Prelude.{◌≡◌};
ghost use Rattle.content.specs.Kinds.{is_zoned};
ghost use Rattle.content.specs.Packed.{is_packed};

use crate::Row;

// A number with a digit to a byte.
pub fn is_zoned(row: Row) -> bool
    ensures { result ≡ is_zoned row.kind }
{
    (Row::UNSIGNED <= row.kind) & (row.kind <= Row::SIGN_TRAILING)
}

// A number with two digits to a byte.
pub fn is_packed(row: Row) -> bool
    ensures { result ≡ is_packed row.kind }
{
    (row.kind == Row::PACKED) | (row.kind == Row::PACKED_UNSIGNED)
}
