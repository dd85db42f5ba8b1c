//! Numbers of any decimals, compared by value.
ghost use Rattle.std.specs.Prelude.{◌≡◌, ◌≤◌, ◌^◌, ◌*ℤ◌, pos};
ghost use Rattle.std.specs.Ordering.{int_cmp};
ghost use Rattle.query_values.specs.Equality as spec;
ghost use Rattle.query_values.specs.Order as order;

use bean_base::power_of_ten;
use std::cmp::Ordering;

/// How `count * 10^exponent` stands to another count. A product that passes 128 bits is beyond
/// every count, so that its sign decides.
#[tactic(auto, using(crate::proofs::NumberFacts::of_numbers))]
fn scaled_order(count: i128, exponent: u8, other: i128) -> Ordering
    ensures { result ≡ int_cmp (count *ℤ pos (10 ^ exponent)) other }
{
    if exponent == 0 || count == 0 {
        return count.cmp(&other);
    }
    if exponent > 38 {
        return count.cmp(&0);
    }
    match count.checked_mul(power_of_ten(exponent)) {
        Some(scaled) => scaled.cmp(&other),
        None => count.cmp(&0),
    }
}

/// How `m * 10^-p` stands to `n * 10^-q`.
pub fn compare_numbers(p: u8, m: i128, q: u8, n: i128) -> Ordering
    ensures { result ≡ order.number_order p m q n }
{
    if p <= q {
        scaled_order(m, q - p, n)
    } else {
        scaled_order(n, p - q, m).reverse()
    }
}

/// Whether they are the same number.
pub(crate) fn same_number(p: u8, m: i128, q: u8, n: i128) -> bool
    ensures { result ≡ spec.same_number p m q n }
{
    compare_numbers(p, m, q, n) == Ordering::Equal
}
