//! An inventory for each account.
ghost use Rattle.std.specs.Prelude.{◌≡◌, ◌+ℤ◌, [], OnOk, List, ℕ, if◌then◌else◌};
ghost use Rattle.std.specs.Prelude.{IfNone, IfSome, IsTrue, Some, position};
ghost use Rattle.std.specs.Int.{w128};
ghost use Rattle.std.specs.Int.RustNames.{FitsSigned};
ghost use Rattle.std.specs.Map.{keys_of};
ghost use Rattle.std.specs.Str.{bytes_eq};
ghost use Rattle.bean_lots.specs.Inventory.{added, count_of};
ghost use Rattle.bean_base.specs.Counts.{at_8};
ghost use Rattle.bean_holdings.specs.Held.{key_of};
ghost use Rattle.bean_holdings.specs.Inventories.{inventory_in};

use crate::known::Known;
use crate::posted::Posted;
use bean_base::Account;
use bean_inventories::Inventory;
use bean_lots::Key;
use indexmap::IndexMap;
use std::alloc::{AllocError, Global};

/// An inventory for each account. The inventory of an account that isn't there is empty.
pub struct Inventories<'a> {
    by_account: IndexMap<Account<'a>, Inventory<'a>>,
    /// At each number that a caller has for accounts, the place at which one of them was found last.
    /// Nothing rests on it: an account that isn't there is looked up.
    found: Vec<usize>,
    known: Known<'a>,
}

/// Written out, so that what gives one up needs to know nothing of what is in it.
impl Drop for Inventories<'_> {
    fn drop(self) {
        let Inventories {
            by_account: _,
            found: _,
            known: _,
        } = self;
    }
}

impl<'a> Inventories<'a> {
    /// Nothing anywhere. Takes no memory.
    pub fn new(alloc: Global) -> Inventories<'a>
        ensures { (a : List ℕ) → inventory_in result a ≡ [] }
    {
        Inventories {
            by_account: IndexMap::new(alloc),
            found: Vec::new(alloc),
            known: Known::new(alloc),
        }
    }

    /// That of an account; `nothing` stands in for an account that isn't there.
    pub fn of<'s>(&'s self, account: &Account<'a>, nothing: &'s Inventory<'a>) -> &'s Inventory<'a>
        requires { nothing.now ≡ [] }
        ensures { result.now ≡ inventory_in self.now account.now }
    {
        self.by_account.get(account).unwrap_or(nothing)
    }

    /// Whether an account is the one at a place.
    fn is_at(&self, place: usize, account: &Account<'a>) -> bool
        ensures { IsTrue result
            → position (bytes_eq account.now) (keys_of self.now.by_account.entries) ≡ Some place }
    {
        let _accounts = self.by_account.len();
        match self.by_account.get_index(place) {
            Some((found, _)) => *account == *found,
            None => false,
        }
    }

    /// The place of an account, if it has one. It isn't hashed where it is the one at `first`.
    fn place_from(&self, account: &Account<'a>, first: usize) -> Option<usize>
        ensures some { IfSome result
            (λ i. position (bytes_eq account.now) (keys_of self.now.by_account.entries) ≡ Some i) }
        ensures none { IfNone result (inventory_in self.now account.now ≡ []) }
    {
        if self.is_at(first, account) {
            return Some(first);
        }
        self.by_account.get_index_of(account)
    }

    /// The place at which an account of a number is looked for first. Past all that is noted it is
    /// the first of all, as few accounts hold lots.
    fn first_place(&self, near: usize) -> usize {
        match self.found.get(near) {
            Some(place) => *place,
            None => 0,
        }
    }

    /// Notes the place at which an account of a number was found, unless it is looked for there
    /// already.
    fn note_place(&mut self, near: usize, place: usize) -> Result<(), AllocError>
        ensures { OnOk result
            ((a : List ℕ) → inventory_in self.new a ≡ inventory_in self.old a) }
    {
        if self.first_place(near) == place {
            return Ok(());
        }
        if self.found.len() <= near {
            self.found.resize(near.saturating_add(1), 0)?;
        }
        if let Some(found) = self.found.get_mut(near) {
            *found = place;
        }
        Ok(())
    }

    /// Puts an inventory in place of that of an account.
    fn put(&mut self, account: Account<'a>, inventory: Inventory<'a>) -> Result<(), AllocError>
        ensures { OnOk result ((a : List ℕ) → inventory_in self.new a
            ≡ (if bytes_eq account.entry a then inventory.entry else inventory_in self.old a)) }
    {
        match self.by_account.insert(account, inventory) {
            Ok(_) => Ok(()),
            Err(_) => Err(AllocError),
        }
    }

    /// Begins the inventory of an account that has no place. It is a function of its own, so that
    /// an addition where something is makes no room for another inventory.
    #[inline(never)]
    fn begin(
        &mut self,
        alloc: Global,
        account: Account<'a>,
        key: Key<'a>,
        count: i128,
    ) -> Result<(), AllocError>
        requires { inventory_in self.old account ≡ [] }
        ensures { OnOk result ((a : List ℕ) → inventory_in self.new a
            ≡ (if bytes_eq account.entry a then added (inventory_in self.old a) key.entry count
            else inventory_in self.old a)) }
    {
        let mut inventory = Inventory::new(alloc);
        inventory.add(key, count)?;
        self.put(account, inventory)
    }

    /// Adds to the inventory of an account. The sum fits.
    fn add(
        &mut self,
        alloc: Global,
        account: Account<'a>,
        key: Key<'a>,
        count: i128,
        near: usize,
    ) -> Result<(), AllocError>
        requires { FitsSigned w128 (count_of (inventory_in self.old account) key +ℤ count) }
        ensures { OnOk result ((a : List ℕ) → inventory_in self.new a
            ≡ (if bytes_eq account.entry a then added (inventory_in self.old a) key.entry count
            else inventory_in self.old a)) }
    {
        let Some(index) = self.place_from(&account, self.first_place(near)) else {
            return self.begin(alloc, account, key, count);
        };
        self.by_account[index].add(key, count)?;
        self.note_place(near, index)
    }

    /// Adds a posting to the inventory of its account, which is found sooner where it is the one
    /// that was found last by the same number. The caller knows that the sum fits.
    pub fn post(
        &mut self,
        alloc: Global,
        posted: &Posted<'a>,
        near: usize,
    ) -> Result<(), AllocError>
        requires { FitsSigned w128 (count_of (inventory_in self.old posted.now.account)
            (key_of posted.now) +ℤ at_8 posted.now.units.number) }
        ensures { OnOk result ((a : List ℕ) → inventory_in self.new a
            ≡ (if bytes_eq posted.now.account a
            then added (inventory_in self.old a) (key_of posted.now) (at_8 posted.now.units.number)
            else inventory_in self.old a)) }
    {
        let count = posted.units.number.scaled(8);
        let key = self.known.key(posted);
        self.add(alloc, posted.account.lend(), key, count, near)
    }
}
