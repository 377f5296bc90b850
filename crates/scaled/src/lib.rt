// Comparison by value. The products D1 × 10^s2 and D2 × 10^s1 can have 36 digits, so they are not made: the side of the greater scale is divided by
// the power of ten that the scales differ by, and the whole part is compared first, then the rest.
#![tactic(auto)]

ghost use Rattle.std.specs.Prelude.{◌≡◌, ◌*◌, ◌^◌, ◌≤◌, pos};
ghost use Rattle.content.specs.Content.{signed};
ghost use Rattle.compare.specs.Order.{order, orderℤ};
ghost use Rattle.compare.specs.Compared.{scaled_order};

use compare::orders::order_of;
use std::cmp::Ordering;

fn power_of_ten(s: u32) -> u64
    requires { s ≤ 18 }
    ensures { result ≡ 10 ^ s }
{
    10u64.pow(s)
}

// d × 10^k against another number.
fn raised_first(d: u64, k: u32, other: u64) -> Ordering
    requires { k ≤ 18 }
    ensures { result ≡ order (d * 10 ^ k) other }
{
    let p = power_of_ten(k);
    let whole = other / p;
    if d == whole {
        let rest = other % p;
        return order_of(0, rest);
    }
    order_of(d, whole)
}

// A number against d × 10^k.
fn raised_second(other: u64, d: u64, k: u32) -> Ordering
    requires { k ≤ 18 }
    ensures { result ≡ order other (d * 10 ^ k) }
{
    let p = power_of_ten(k);
    let whole = other / p;
    if whole == d {
        return order_of(other % p, 0);
    }
    order_of(whole, d)
}

fn compare_magnitudes(d1: u64, s1: u32, d2: u64, s2: u32) -> Ordering
    requires { (s1 ≤ 18) × (s2 ≤ 18) }
    ensures { result ≡ order (d1 * 10 ^ s2) (d2 * 10 ^ s1) }
{
    if s1 == s2 {
        return order_of(d1, d2);
    }
    if s1 < s2 {
        return raised_first(d1, s2 - s1, d2);
    }
    raised_second(d1, d2, s1 - s2)
}

// Two values, each a sign and a magnitude, at their scales. Zero has one value whatever its sign.
pub fn compare_scaled(minus1: bool, d1: u64, s1: u32, minus2: bool, d2: u64, s2: u32) -> Ordering
    requires { (s1 ≤ 18) × (s2 ≤ 18) }
    ensures { result ≡ scaled_order (signed minus1 d1) s1 (signed minus2 d2) s2 }
{
    if minus1 {
        if minus2 {
            return compare_magnitudes(d2, s2, d1, s1);
        }
        if (d1 == 0) & (d2 == 0) {
            return Ordering::Equal;
        }
        return Ordering::Less;
    }
    if minus2 {
        if (d1 == 0) & (d2 == 0) {
            return Ordering::Equal;
        }
        return Ordering::Greater;
    }
    compare_magnitudes(d1, s1, d2, s2)
}

// A value against 0.
pub fn compare_zero(minus: bool, d: u64) -> Ordering
    ensures { result ≡ orderℤ (signed minus d) (pos 0) }
{
    if d == 0 {
        return Ordering::Equal;
    }
    if minus {
        return Ordering::Less;
    }
    Ordering::Greater
}
