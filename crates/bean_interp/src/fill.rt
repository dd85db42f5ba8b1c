//! The amounts that legs take.

use bean_base::Amount;

/// An amount that a leg takes.
#[derive(Drop, PartialEq, Eq)]
pub struct Fill<'a> {
    /// The leg's number, from 0.
    pub leg: usize,
    pub amount: Amount<'a>,
}
