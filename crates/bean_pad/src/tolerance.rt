//! How far a balance may be off.
ghost use Rattle.std.specs.Prelude.{◌≡◌, ◌<◌, ◌^◌};
ghost use Rattle.std.specs.Int.RustNames.{unsigned_abs};
ghost use Rattle.bean_pad.specs.Tolerance as spec;

use bean_base::Num;
use bean_directives::Balance;

/// A unit in the last decimal of a number, 0 of a whole one, as a count of `10^-8`.
fn last_unit(number: Num) -> i128
    ensures is { result ≡ spec.last_unit number }
    ensures small { unsigned_abs result < 10 ^ 20 }
{
    match number.places {
        1 => 10_000_000,
        2 => 1_000_000,
        3 => 100_000,
        4 => 10_000,
        5 => 1_000,
        6 => 100,
        7 => 10,
        8 => 1,
        _ => 0,
    }
}

/// How far a balance may be off, as a count of `10^-8`.
pub(crate) fn tolerance_of(balance: &Balance<'_>) -> i128
    ensures is { result ≡ spec.tolerance_of balance.now }
    ensures small { unsigned_abs result < 10 ^ 20 }
{
    match balance.tolerance {
        Some(tolerance) => tolerance.scaled(8),
        None => last_unit(balance.number),
    }
}

/// Whether a difference is more than the tolerance, above or below.
pub(crate) fn is_out(difference: i128, tolerance: i128) -> bool
    requires { unsigned_abs difference < 2 ^ 127 }
    ensures { result ≡ spec.is_out difference tolerance }
{
    tolerance < difference || tolerance < -difference
}
