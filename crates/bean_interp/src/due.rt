//! The number that is due where a sum of weights isn't 0.
ghost use Rattle.std.specs.Prelude.{◌≡◌, ◌*ℤ◌, ◌<◌, ◌≤◌, ◌^◌, ℤ, pos, IfSome, MatchOption};
ghost use Rattle.std.specs.Int.RustNames.{unsigned_abs};
ghost use Rattle.bean_interp.specs.Due as spec;
ghost use Rattle.bean_interp.specs.Due.{GivesAt, GivesDue};

use crate::weight::TooWide;
use bean_base::Num;

/// Counts of `10^-16` in one of `10^-8`.
const UNIT: u128 = 100_000_000;

/// The count of `10^-8` that a count of `10^-16` is, where it is one.
fn in_8(count: i128) -> Option<i128>
    requires { unsigned_abs count < 10 ^ 38 }
    ensures { MatchOption result ((z : ℤ) → ¬ (z *ℤ pos (10 ^ 8) ≡ count))
        (λ z. z *ℤ pos (10 ^ 8) ≡ count) }
{
    let magnitude = count.unsigned_abs();
    if magnitude % UNIT != 0 {
        return None;
    }
    let quotient = (magnitude / UNIT) as i128;
    Some(if count < 0 { -quotient } else { quotient })
}

/// The number of exactly so many counts of `10^-16`.
fn exact(count: i128) -> Result<Num, TooWide>
    requires { unsigned_abs count < 10 ^ 38 }
    ensures { GivesAt 8 count result }
{
    let Some(count) = in_8(count) else {
        return Err(TooWide);
    };
    match Num::new(count, 8) {
        Ok(number) => Ok(number),
        Err(_) => Err(TooWide),
    }
}

/// The number of a count of `10^-16`, rounded to so many decimals.
fn rounded(count: i128, decimals: u8) -> Result<Num, TooWide>
    requires { decimals ≤ 8 }
    ensures { GivesAt decimals (spec.rounded_at decimals count) result }
{
    match Num::round_to(count, decimals) {
        Ok(number) => Ok(number),
        Err(_) => Err(TooWide),
    }
}

/// Minus the residual: rounded to the decimals of its currency, exact where it has none.
pub(crate) fn number_due(precision: Option<u8>, residual: i128) -> Result<Num, TooWide>
    requires few { IfSome precision (λ d. d ≤ 8) }
    requires bound { unsigned_abs residual < 10 ^ 38 }
    ensures { GivesDue precision residual result }
{
    match precision {
        Some(decimals) => rounded(-residual, decimals),
        None => exact(-residual),
    }
}
