//! Operations on two values.
ghost use Rattle.std.specs.Prelude.{◌≡◌, ◌≢◌, Some, None};
ghost use Rattle.plain_machine.specs.Loading.{binary_of};

use query_values::arithmetic::{add, mul, sub};
use query_values::comparison::{at_most, equal, less};
use query_values::membership::in_set;
use query_values::{Binary, Value};

/// What an operation gives, where it may be applied and the result can be held.
#[inline(always)]
pub fn apply_binary<'r>(op: Binary, x: &Value<'_>, y: &Value<'_>) -> Value<'r>
    requires { binary_of op x.now y.now ≢ None }
    ensures { binary_of op x.now y.now ≡ Some result }
{
    match op {
        Binary::Add => add(x, y),
        Binary::Sub => sub(x, y),
        Binary::Mul => mul(x, y),
        Binary::Equal => Value::Truth(equal(x, y)),
        Binary::NotEqual => Value::Truth(!equal(x, y)),
        Binary::Less => Value::Truth(less(x, y)),
        Binary::AtMost => Value::Truth(at_most(x, y)),
        Binary::Greater => Value::Truth(less(y, x)),
        Binary::AtLeast => Value::Truth(at_most(y, x)),
        Binary::InSet => Value::Truth(in_set(x, y)),
    }
}
