//! Sums of units by account and currency, each account with those below it.
ghost use Rattle.std.specs.Prelude.{◌≡◌, ◌+◌, ◌<◌, ◌^◌, [], ◌∷◌, OnOk, List, ℕ};
ghost use Rattle.std.specs.Int.RustNames.{unsigned_abs};
ghost use Rattle.bean_pad.specs.Held.{Units};
ghost use Rattle.bean_pad.specs.Standing.{units};
ghost use Rattle.bean_pad.specs.Sums.{AreSmall, Holds, sum_at};

use crate::table::Table;
use bean_base::{Account, Currency};
use std::alloc::{AllocError, Global};

/// What units that were added one by one come to, by account and currency.
#[derive(Drop)]
pub(crate) struct Sums<'a> {
    pub table: Table<'a>,
    /// How many units were added.
    pub additions: usize,
}

impl<'a> Sums<'a> {
    /// No units. Takes no memory.
    pub fn new(alloc: Global) -> Sums<'a>
        ensures holds { Holds [] result }
        ensures small { AreSmall result }
        ensures additions { result.additions ≡ 0 }
    {
        Sums {
            table: Table::new(alloc),
            additions: 0,
        }
    }

    /// What an account and those below it hold of a currency.
    pub fn get(&self, account: &Account<'_>, currency: &Currency<'_>) -> i128
        ensures { result ≡ sum_at self.now account.now currency.now }
    {
        self.table.get(account.text(), currency)
    }

    /// Adds units of a currency to an account, as a count of `10^-8`.
    pub fn add(
        &mut self,
        account: &Account<'a>,
        currency: &Currency<'a>,
        count: i128,
    ) -> Result<(), AllocError>
        requires small { AreSmall self.old }
        requires few { self.old.additions < 2 ^ 42 }
        requires count { unsigned_abs count < 10 ^ 20 }
        ensures holds { OnOk result ((us : List Units) → Holds us self.old
            → Holds (units account.now currency.now count ∷ us) self.new) }
        ensures small { OnOk result (AreSmall self.new) }
        ensures additions { OnOk result (self.new.additions ≡ self.old.additions + 1) }
    {
        self.table.add_up(account.text(), currency, count)?;
        self.additions += 1;
        Ok(())
    }
}
