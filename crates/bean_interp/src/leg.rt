//! Legs: the postings of a transaction, as its completion sees them.
ghost use Rattle.std.specs.Prelude.{◌≤◌};

use bean_base::{Amount, Currency};
use bean_lots::Cost;

/// What units are worth in their transaction.
#[derive(Drop, PartialEq, Eq)]
pub enum Worth<'a> {
    /// The units themselves.
    Units,
    /// So much for each unit, of the lot that they are held as. A price beside it says nothing.
    Cost(Cost<'a>),
    /// So much for each unit.
    PerUnit(Amount<'a>),
    /// So much for all units, with their sign.
    Total(Amount<'a>),
}

/// A leg whose units are known.
#[derive(Drop, PartialEq, Eq)]
pub struct Whole<'a> {
    pub units: Amount<'a>,
    /// How many decimals the number has that is written for the units: 0 where none is written, and
    /// for each take of a reduction those of the reduction's number.
    pub decimals: u8,
    pub worth: Worth<'a>,
    ghost few: { decimals ≤ 8 },
}

/// A posting of a transaction: with its units, or what it takes to balance the others.
#[derive(Drop, PartialEq, Eq)]
pub enum Leg<'a> {
    Whole(Whole<'a>),
    /// It takes what is lacking in this currency.
    MissingNumber(Currency<'a>),
    /// It takes all that is lacking.
    MissingAmount,
}
