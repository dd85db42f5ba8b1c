//! How many lots of each sign a transaction leaves of what accounts held before it.
ghost use Rattle.std.specs.Prelude.{◌≡◌, ◌<◌, ◌^◌, ◌+ℤ◌, List, ℕ, OnOk, if◌then◌else◌};
ghost use Rattle.std.specs.Prelude.{false, length};
ghost use Rattle.std.specs.Int.{w128};
ghost use Rattle.std.specs.Int.RustNames.{FitsSigned};
ghost use Rattle.std.specs.Str.{bytes_eq};
ghost use Rattle.bean_lots.specs.Inventory.{added, count_of};
ghost use Rattle.bean_lots.specs.declared.lot.Position.{Position};
ghost use Rattle.bean_holdings.specs.LotsLeft.{AreLeft, left_in, same_place, signs_in};

use bean_base::{Account, Currency};
use bean_inventories::{Inventory, Signs};
use bean_lots::Key;
use indexmap::IndexMap;
use std::alloc::{AllocError, Global};

/// An account and a currency of which a transaction took lots.
#[derive(Drop, PartialEq, Eq, Hash)]
pub struct TakenFrom<'a> {
    account: Account<'a>,
    currency: Currency<'a>,
}

/// The signs of the lots that are left, of each account and currency of which lots were taken. Of
/// any other all lots that the account held are left.
pub struct LotsLeft<'a> {
    signs: IndexMap<TakenFrom<'a>, Signs>,
}

/// Written out, so that what gives one up needs to know nothing of what is in it.
impl Drop for LotsLeft<'_> {
    fn drop(self) {
        let LotsLeft { signs: _ } = self;
    }
}

impl<'a> LotsLeft<'a> {
    /// Nothing is taken. Takes no memory.
    pub fn new(alloc: Global) -> LotsLeft<'a>
        ensures { (a c : List ℕ) (held : List Position)
            → left_in result a c held ≡ signs_in c held }
    {
        LotsLeft {
            signs: IndexMap::new(alloc),
        }
    }

    /// The signs of the lots of a currency that are left in an account, which held so much before.
    pub fn of(&self, account: &Account<'a>, currency: &Currency<'a>, held: &Inventory<'_>) -> Signs
        ensures left { result ≡ left_in self.now account.now currency.now held.now }
        ensures few { length held.now < 2 ^ 63 }
    {
        let all = held.signs_of(currency);
        let place = TakenFrom {
            account: account.lend(),
            currency: currency.lend(),
        };
        match self.signs.get(&place) {
            Some(signs) => *signs,
            None => all,
        }
    }

    fn set(
        &mut self,
        account: &Account<'a>,
        currency: &Currency<'a>,
        signs: Signs,
    ) -> Result<(), AllocError>
        ensures { OnOk result ((a c : List ℕ) (held : List Position) → left_in self.new a c held
            ≡ (if same_place account.now currency.now a c then signs
            else left_in self.old a c held)) }
    {
        let place = TakenFrom {
            account: account.lend(),
            currency: currency.lend(),
        };
        self.signs.insert(place, signs)?;
        Ok(())
    }

    /// Notes that so much more is taken from an account under a key; `taken` is what was before.
    pub fn note(
        &mut self,
        account: &Account<'a>,
        held: &Inventory<'a>,
        taken: &Inventory<'a>,
        key: &Key<'a>,
        count: i128,
    ) -> Result<(), AllocError>
        requires left { AreLeft self.old account.now held.now taken.now }
        requires before { FitsSigned w128 (count_of held.now key.now +ℤ count_of taken.now key.now) }
        requires after { FitsSigned w128
            ((count_of held.now key.now +ℤ count_of taken.now key.now) +ℤ count) }
        ensures own { OnOk result
            (AreLeft self.new account.now held.now (added taken.now key.now count)) }
        ensures others { OnOk result ((a c : List ℕ) (es : List Position)
            → bytes_eq account.now a ≡ false → left_in self.new a c es ≡ left_in self.old a c es) }
    {
        let held_count = held.get(key);
        let before = held_count + taken.get(key);
        // What isn't held as a lot isn't counted.
        if held_count == 0 {
            return Ok(());
        }
        if key.lot.is_none() {
            return Ok(());
        }
        let signs = self
            .of(account, &key.currency, held)
            .changed(before, before + count);
        self.set(account, &key.currency, signs)
    }
}
