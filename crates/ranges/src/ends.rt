// Two ends of a range, as they are written.
ghost use Rattle.std.specs.Prelude.{◌≡◌, false, ◌≤◌, length};
ghost use Rattle.compare.specs.Order.{is_greater};
ghost use Rattle.values.specs.Comparison.{side, comparison};
ghost use Rattle.values.specs.Truth.{Fit, Numeral};
ghost use Rattle.description.specs.Limits.{above};
ghost use Rattle.literal_pairs.specs.Spelling.{literal_of, Written};

use compare::orders::relation_holds;
use content::Row;
use content::relations::GREATER;
use literal_bytes::copies::copy_literal;
use numbers::reading::read_number;
use scaled::compare_scaled;
use tables::rows::is_numeric;
use values::sides::compare_sides;

fn above_by_value(low: Row, left: &[u8], high: Row, right: &[u8]) -> bool
    requires { Numeral low left.now × Numeral high right.now }
    ensures { result ≡ is_greater (comparison (side false low left.now) (side false high right.now)) }
{
    let one = read_number(low, left);
    let other = read_number(high, right);
    let order = compare_scaled(
        one.minus,
        one.digits,
        low.scale,
        other.minus,
        other.digits,
        high.scale,
    );
    relation_holds(GREATER, order)
}

// Whether the first literal's bytes come after the second's.
fn is_above(low: Row, left: &[u8], high: Row, right: &[u8]) -> bool
    requires { Fit (side false low left.now) × Fit (side false high right.now) }
    ensures { result ≡ is_greater (comparison (side false low left.now) (side false high right.now)) }
{
    if is_numeric(low) & is_numeric(high) {
        return above_by_value(low, left, high, right);
    }
    relation_holds(GREATER, compare_sides(false, low, left, false, high, right))
}

// The same as `exceeds`, with room for the bytes of both.
fn exceeds_in(
    low: Row,
    first: &[u8],
    left: &mut [u8],
    high: Row,
    second: &[u8],
    right: &mut [u8],
) -> bool
    requires written { Written first.now low × Written second.now high }
    requires in_bounds { (256 ≤ length left.old) × (256 ≤ length right.old) }
    ensures { result ≡ above (literal_of first.now) (literal_of second.now) }
{
    copy_literal(low, first, left);
    copy_literal(high, second, right);
    let n = low.size as usize;
    let m = high.size as usize;
    is_above(low, &left[..n], high, &right[..m])
}

// Whether the low end exceeds the high end. A literal has 256 bytes at most.
pub fn exceeds(low: Row, first: &[u8], high: Row, second: &[u8]) -> bool
    requires { Written first.now low × Written second.now high }
    ensures { result ≡ above (literal_of first.now) (literal_of second.now) }
{
    let mut left = [0u8; 256];
    let mut right = [0u8; 256];
    exceeds_in(low, first, &mut left, high, second, &mut right)
}
