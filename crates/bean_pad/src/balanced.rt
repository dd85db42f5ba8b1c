//! What is kept of balances and of pads by account.
ghost use Rattle.std.specs.Prelude.{◌≡◌, ◌&&◌, OnOk, List, ℕ, None, Some, pos, if◌then◌else◌};
ghost use Rattle.std.specs.Str.{bytes_eq};
ghost use Rattle.bean_pad.specs.Sums.{number_at, padded_at, pads_at};

use crate::slot::Slot;
use bean_base::{Account, Currency};
use indexmap::IndexMap;
use std::alloc::{AllocError, Global};

/// What is kept of the balances on an account in a currency.
#[derive(Clone, Copy)]
pub(crate) struct Seen {
    /// What its paddings come to, as a count of `10^-8`.
    pub padded: i128,
    /// How many pads stand before the latest balance.
    pub pads: usize,
}

/// What is kept of balances, by account and currency.
#[derive(Drop)]
pub(crate) struct Balanced<'a> {
    by_slot: IndexMap<Slot<'a>, Seen>,
}

impl<'a> Balanced<'a> {
    /// No balances. Takes no memory.
    pub fn new(alloc: Global) -> Balanced<'a>
        ensures padded { (a c : List ℕ) → padded_at result a c ≡ pos 0 }
        ensures pads { (a c : List ℕ) → pads_at result a c ≡ 0 }
    {
        Balanced {
            by_slot: IndexMap::new(alloc),
        }
    }

    /// What is kept of the balances on an account in a currency.
    pub fn get(&self, account: &Account<'_>, currency: &Currency<'_>) -> Seen
        ensures padded { result.padded ≡ padded_at self.now account.now currency.now }
        ensures pads { result.pads ≡ pads_at self.now account.now currency.now }
    {
        match self.by_slot.get(&Slot::new(account.text(), currency)) {
            Some(seen) => *seen,
            None => Seen { padded: 0, pads: 0 },
        }
    }

    /// Keeps this of an account in a currency; all else stays.
    pub fn set(
        &mut self,
        account: &Account<'a>,
        currency: &Currency<'a>,
        seen: Seen,
    ) -> Result<(), AllocError>
        ensures padded { OnOk result ((a c : List ℕ) → padded_at self.new a c
            ≡ (if bytes_eq account.now a && bytes_eq currency.now c
            then seen.padded else padded_at self.old a c)) }
        ensures pads { OnOk result ((a c : List ℕ) → pads_at self.new a c
            ≡ (if bytes_eq account.now a && bytes_eq currency.now c
            then seen.pads else pads_at self.old a c)) }
    {
        self.by_slot
            .insert(Slot::new(account.text(), currency), seen)?;
        Ok(())
    }
}

/// The latest pads, by their accounts.
#[derive(Drop)]
pub(crate) struct Latest<'a> {
    numbers: IndexMap<Account<'a>, usize>,
}

impl<'a> Latest<'a> {
    /// No pads. Takes no memory.
    pub fn new(alloc: Global) -> Latest<'a>
        ensures { (a : List ℕ) → number_at result a ≡ None }
    {
        Latest {
            numbers: IndexMap::new(alloc),
        }
    }

    /// The number of an account's latest pad.
    pub fn get(&self, account: &Account<'_>) -> Option<usize>
        ensures { result ≡ number_at self.now account.now }
    {
        self.numbers.get(account).copied()
    }

    /// Makes a pad the latest of its account.
    pub fn set(&mut self, account: &Account<'a>, number: usize) -> Result<(), AllocError>
        ensures { OnOk result ((a : List ℕ) → number_at self.new a
            ≡ (if bytes_eq account.now a then Some number else number_at self.old a)) }
    {
        self.numbers.insert(account.lend(), number)?;
        Ok(())
    }
}
