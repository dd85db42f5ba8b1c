//! Arithmetic of values. Of null it gives null.
ghost use Rattle.std.specs.Prelude.{◌≡◌, IsTrue};
ghost use Rattle.query_values.specs.Arithmetic.{aligned, difference_of, magnitude_of};
ghost use Rattle.query_values.specs.Arithmetic.{product_of, sum_of};
ghost use Rattle.query_values.specs.Held.{is_held};
ghost use Rattle.query_values.specs.Operand.{are_addable, has_at_most, is_number, is_signed};

use crate::value::Value;
use bean_base::power_of_ten;

/// The same number with so many decimals, which are at least as many as it has.
pub fn align<'r>(x: &Value<'_>, places: u8) -> Value<'r>
    requires applies { IsTrue (has_at_most places x.now) }
    requires held { IsTrue (is_held (aligned places x.now)) }
    ensures { result ≡ aligned places x.now }
{
    match x {
        Value::Number {
            places: from,
            count,
        } => Value::Number {
            places,
            count: *count * power_of_ten(places - *from),
        },
        _ => Value::Null,
    }
}

/// The sum of two numbers of the same decimals.
pub fn add<'r>(a: &Value<'_>, b: &Value<'_>) -> Value<'r>
    requires applies { IsTrue (are_addable a.now b.now) }
    requires held { IsTrue (is_held (sum_of a.now b.now)) }
    ensures { result ≡ sum_of a.now b.now }
{
    match (a, b) {
        (Value::Number { places, count: m }, Value::Number { count: n, .. }) => Value::Number {
            places: *places,
            count: *m + *n,
        },
        _ => Value::Null,
    }
}

/// The difference of two numbers of the same decimals.
pub fn sub<'r>(a: &Value<'_>, b: &Value<'_>) -> Value<'r>
    requires applies { IsTrue (are_addable a.now b.now) }
    requires held { IsTrue (is_held (difference_of a.now b.now)) }
    ensures { result ≡ difference_of a.now b.now }
{
    match (a, b) {
        (Value::Number { places, count: m }, Value::Number { count: n, .. }) => Value::Number {
            places: *places,
            count: *m - *n,
        },
        _ => Value::Null,
    }
}

/// The product of two numbers, with the decimals of both together.
pub fn mul<'r>(a: &Value<'_>, b: &Value<'_>) -> Value<'r>
    requires { IsTrue (is_held (product_of a.now b.now)) }
    ensures { result ≡ product_of a.now b.now }
{
    match (a, b) {
        (
            Value::Number {
                places: p,
                count: m,
            },
            Value::Number {
                places: q,
                count: n,
            },
        ) => {
            Value::Number {
                places: *p + *q,
                count: *m * *n,
            }
        }
        _ => Value::Null,
    }
}

/// The number without its sign.
pub fn abs<'r>(x: &Value<'_>) -> Value<'r>
    requires { IsTrue (is_held (magnitude_of x.now)) }
    ensures { result ≡ magnitude_of x.now }
{
    match x {
        Value::Number { places, count } => Value::Number {
            places: *places,
            count: count.abs(),
        },
        _ => Value::Null,
    }
}
