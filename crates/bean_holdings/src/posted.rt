//! Postings as they are booked.
ghost use Rattle.std.specs.Prelude.{◌≡◌};

use bean_base::{Account, Amount, Apart};
use bean_lots::{Key, Lot};

/// A posting as it is booked.
#[derive(Drop)]
pub struct Posted<'a> {
    pub account: Account<'a>,
    pub units: Amount<'a>,
    /// The lot that the units are held as.
    pub lot: Option<Apart<Lot<'a>>>,
    /// The number of the written posting among those of its transaction, from 0.
    pub written: usize,
}

impl<'a> Posted<'a> {
    ghost use Rattle.bean_holdings.specs.Held.{key_of};

    /// What it is held under.
    pub fn key(&self) -> Key<'a>
        ensures { result ≡ key_of self.now }
    {
        Key {
            currency: self.units.currency.lend(),
            lot: self.lend_lot(),
        }
    }

    /// The lot once more.
    pub fn lend_lot(&self) -> Option<Lot<'a>>
        ensures { result ≡ self.now.lot }
    {
        match &self.lot {
            Some(lot) => Some(lot.get().lend()),
            None => None,
        }
    }
}
