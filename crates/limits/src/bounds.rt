//! What a query takes for granted of the ledgers that it runs on.
ghost use Rattle.std.specs.Prelude.{◌≡◌};
ghost use Rattle.limits.specs.Version as spec;

use crate::counts::{FIRST_MOST_POSTINGS, MOST_POSTINGS};

/// The version of a query file, and with it the schema of the ledgers that it speaks of: how many
/// postings they may have, and which columns.
#[derive(Clone, Copy, Drop, PartialEq, Eq)]
pub enum Version {
    /// At most a million postings, and no prices.
    First,
    /// As many postings as a ledger holds, with their prices.
    Second,
}

impl Version {
    /// The most postings of a ledger that a file of the version may speak of.
    pub fn most_postings(self) -> usize
        ensures { result ≡ spec.most_postings self }
    {
        match self {
            Version::First => FIRST_MOST_POSTINGS,
            Version::Second => MOST_POSTINGS,
        }
    }

    /// Its number in a file.
    pub fn number(self) -> u16
        ensures { result ≡ spec.number self }
    {
        match self {
            Version::First => 1,
            Version::Second => 2,
        }
    }

    /// The version of a number.
    pub fn numbered(number: u16) -> Option<Version>
        ensures { result ≡ spec.numbered number }
    {
        match number {
            1 => Some(Version::First),
            2 => Some(Version::Second),
            _ => None,
        }
    }
}

/// The schema of ledgers, the most postings, and how many digits counts have: those of units, costs
/// and prices, in `10^-8`, are below `10^units_digits`, and weights and products of units and cost,
/// in `10^-16`, below `10^value_digits`, signs left off. Of prices nothing is taken for granted in
/// the first schema, which knows none.
#[derive(Clone, Copy, Drop, PartialEq, Eq)]
pub struct Bounds {
    pub schema: Version,
    pub postings: u32,
    pub units_digits: u8,
    pub value_digits: u8,
}
