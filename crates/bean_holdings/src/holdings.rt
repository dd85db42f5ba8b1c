//! The lots that each account holds.
ghost use Rattle.std.specs.Prelude.{◌≡◌, ◌<◌, ◌+◌, ◌^◌, [], ◌∷◌, ◌++◌, OnOk, List, ℕ};
ghost use Rattle.std.specs.Prelude.{◌&&◌, if◌then◌else◌};
ghost use Rattle.std.specs.Option.{is_some};
ghost use Rattle.std.specs.Str.{bytes_eq};
ghost use Rattle.bean_lots.specs.Inventory.{added};
ghost use Rattle.bean_base.specs.Counts.{at_8};
ghost use Rattle.bean_holdings.specs.Held.{key_of};
ghost use Rattle.bean_holdings.specs.Holdings.{AreHeld, IsBounded, additions_in, holding};
ghost use Rattle.bean_holdings.specs.declared.posted.Posted as spec;

use crate::inventories::Inventories;
use crate::posted::Posted;
use bean_base::Account;
use bean_inventories::Inventory;
use std::alloc::{AllocError, Global};

/// The lots that each account holds. Units that are held without a lot are no part of it: nothing asks
/// for them. Each posting is counted, whatever it is of.
pub struct Holdings<'a> {
    inventories: Inventories<'a>,
    additions: usize,
}

/// Written out, so that what gives one up needs to know nothing of what is in it.
impl Drop for Holdings<'_> {
    fn drop(self) {
        let Holdings {
            inventories: _,
            additions: _,
        } = self;
    }
}

impl<'a> Holdings<'a> {
    /// Nothing anywhere. Takes no memory.
    pub fn new(alloc: Global) -> Holdings<'a>
        ensures nothing { (a : List ℕ) → holding result a ≡ [] }
        ensures bounded { IsBounded result }
        ensures additions { additions_in result ≡ 0 }
    {
        Holdings {
            inventories: Inventories::new(alloc),
            additions: 0,
        }
    }

    /// How many postings were added.
    pub fn additions(&self) -> usize
        ensures { result ≡ additions_in self.now }
    {
        self.additions
    }

    /// The lots of an account; `nothing` stands in for an account that isn't there.
    pub fn of<'s>(&'s self, account: &Account<'a>, nothing: &'s Inventory<'a>) -> &'s Inventory<'a>
        requires { nothing.now ≡ [] }
        ensures { result.now ≡ holding self.now account.now }
    {
        self.inventories.of(account, nothing)
    }

    /// Adds a posting to what its account holds. Where its units have no lot it is only counted.
    /// `near` is a small number of the caller's for that account: where the account was the last one
    /// with this number it is found without a look-up.
    pub fn post(
        &mut self,
        alloc: Global,
        posted: &Posted<'a>,
        near: usize,
    ) -> Result<(), AllocError>
        requires bounded { IsBounded self.old }
        requires few { additions_in self.old < 2 ^ 40 }
        ensures held { OnOk result ((ps : List spec.Posted) → AreHeld ps self.old
            → AreHeld (ps ++ posted.now ∷ []) self.new) }
        ensures holding { OnOk result ((a : List ℕ) → holding self.new a
            ≡ (if bytes_eq posted.now.account a && is_some posted.now.lot
            then added (holding self.old a) (key_of posted.now) (at_8 posted.now.units.number)
            else holding self.old a)) }
        ensures bounded { OnOk result (IsBounded self.new) }
        ensures additions { OnOk result (additions_in self.new ≡ additions_in self.old + 1) }
    {
        self.additions += 1;
        if posted.lot.is_none() {
            return Ok(());
        }
        self.inventories.post(alloc, posted, near)
    }
}
