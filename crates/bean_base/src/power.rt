//! Powers of ten.
ghost use Rattle.std.specs.Prelude.{◌≡◌, ◌≤◌, ◌^◌, pos};

/// A power of ten by one look at a table, since a call of `pow` would be most of an addition.
#[inline(always)]
pub(crate) fn power_to_19(exponent: u8) -> u64
    requires { exponent ≤ 19 }
    ensures { result ≡ 10 ^ exponent }
{
    match exponent {
        0 => 1,
        1 => 10,
        2 => 100,
        3 => 1_000,
        4 => 10_000,
        5 => 100_000,
        6 => 1_000_000,
        7 => 10_000_000,
        8 => 100_000_000,
        9 => 1_000_000_000,
        10 => 10_000_000_000,
        11 => 100_000_000_000,
        12 => 1_000_000_000_000,
        13 => 10_000_000_000_000,
        14 => 100_000_000_000_000,
        15 => 1_000_000_000_000_000,
        16 => 10_000_000_000_000_000,
        17 => 100_000_000_000_000_000,
        18 => 1_000_000_000_000_000_000,
        19 => 10_000_000_000_000_000_000,
        _ => unreachable!(),
    }
}

/// A power of ten.
pub fn power_of_ten(exponent: u8) -> i128
    requires { exponent ≤ 38 }
    ensures { result ≡ pos (10 ^ exponent) }
{
    if exponent <= 19 {
        power_to_19(exponent) as i128
    } else {
        power_to_19(19) as i128 * power_to_19(exponent - 19) as i128
    }
}
