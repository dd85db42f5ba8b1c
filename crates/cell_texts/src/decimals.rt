//! How many decimals numbers have before the zeros at their end.
ghost use Rattle.std.specs.Prelude.{◌≤◌, ◌<◌, ◌%◌, ◌^◌, length};
ghost use Rattle.std.specs.Int.RustNames.{unsigned_abs};
ghost use Rattle.number_texts.specs.Digits.{exact_decimals};

/// How many of eight decimals stand before the zeros at the end, where they are four at most, as they
/// mostly are; else none are told.
#[inline(always)]
#[tactic(auto, using(crate::proofs::OwnDecimals::at_least))]
fn few_of_eight(decimals: u64) -> u8
    requires { decimals < 10 ^ 8 }
    ensures { result ≤ length (exact_decimals 8 decimals) }
{
    if decimals % 1_000_000 == 0 {
        if decimals % 10_000_000 != 0 {
            return 2;
        }
        return if decimals == 0 { 0 } else { 1 };
    }
    if decimals % 10_000 != 0 {
        return 0;
    }
    if decimals % 100_000 == 0 { 3 } else { 4 }
}

/// How many decimals a number has before the zeros at its end, or fewer. With as many its text has no
/// zero more, and most texts of numbers are made faster whose decimals are known.
#[inline(always)]
pub(crate) fn own_decimals(count: i128, places: u8) -> u8
    ensures { result ≤ length (exact_decimals places (unsigned_abs count % 10 ^ places)) }
{
    if places != 8 {
        return 0;
    }
    match u64::try_from(count.unsigned_abs()) {
        Ok(number) => few_of_eight(number % 100_000_000),
        Err(_) => 0,
    }
}
