//! What a transaction may still take of what accounts held before it.
//!
//! A transaction that sells many lots of an account looks for each sale at what is left there. Of
//! the first and the last lots nothing is left once they are taken whole, so the account's rest is
//! kept, which has them no more: each lot is passed once, however many sales there are.
ghost use Rattle.std.specs.Prelude.{◌≡◌, ◌<◌, ◌^◌, ◌+ℤ◌, List, ℕ, ℤ, IfNone, IfSome, OnOk, length};
ghost use Rattle.std.specs.Prelude.{if◌then◌else◌, ◌↔◌, IsTrue};
ghost use Rattle.std.specs.Int.{w128};
ghost use Rattle.std.specs.Int.RustNames.{FitsSigned};
ghost use Rattle.std.specs.Str.{bytes_eq};
ghost use Rattle.bean_lots.specs.Inventory.{added, count_of, position_of};
ghost use Rattle.bean_lots.specs.declared.lot.Position.{Position};
ghost use Rattle.bean_reductions.specs.After.{AreSmall};
ghost use Rattle.bean_reductions.specs.Rest.{HasAllLeft, IsGone};
ghost use Rattle.bean_holdings.specs.Rests.{rest_in};

use bean_base::Account;
use bean_inventories::Inventory;
use bean_inventories::inventory::Positions;
use bean_lots::Key;
use indexmap::IndexMap;
use std::alloc::{AllocError, Global};

/// Whether nothing is left of what is held under a key.
fn is_gone(key: &Key<'_>, count: i128, taken: &Inventory<'_>) -> bool
    requires { FitsSigned w128 (count +ℤ count_of taken.now key.now) }
    ensures { IsTrue result ↔ IsGone taken.now (position_of key.now count) }
{
    taken.get(key) + count == 0
}

/// What is behind the first position, where nothing is left of that.
fn behind_gone<'s, 'a>(rest: &Positions<'a, 's>, taken: &Inventory<'_>) -> Option<Positions<'a, 's>>
    requires rest { AreSmall (2 ^ 125) rest.now }
    requires taken { AreSmall (2 ^ 125) taken.now }
    ensures rest { IfSome result (λ behind. HasAllLeft taken.now behind rest.now) }
    ensures less { IfSome result (λ behind. length behind < length rest.now) }
{
    let mut behind = rest.lend();
    let (key, count) = behind.next_held()?;
    if !is_gone(key, count, taken) {
        return None;
    }
    Some(behind)
}

/// What is before the last position, where nothing is left of that.
fn before_gone<'s, 'a>(rest: &Positions<'a, 's>, taken: &Inventory<'_>) -> Option<Positions<'a, 's>>
    requires rest { AreSmall (2 ^ 125) rest.now }
    requires taken { AreSmall (2 ^ 125) taken.now }
    ensures rest { IfSome result (λ before. HasAllLeft taken.now before rest.now) }
    ensures less { IfSome result (λ before. length before < length rest.now) }
{
    let mut before = rest.lend();
    let (key, count) = before.next_back_held()?;
    if !is_gone(key, count, taken) {
        return None;
    }
    Some(before)
}

/// A rest without the first positions of which nothing is left.
fn without_first_gone<'s, 'a>(rest: Positions<'a, 's>, taken: &Inventory<'_>) -> Positions<'a, 's>
    requires rest { AreSmall (2 ^ 125) rest }
    requires taken { AreSmall (2 ^ 125) taken.now }
    ensures { HasAllLeft taken.now result rest.entry }
{
    let mut part = rest;
    while let Some(behind) = behind_gone(&part, taken) {
        part = behind;
    }
    part
}

/// A rest without the last positions of which nothing is left.
fn without_last_gone<'s, 'a>(rest: Positions<'a, 's>, taken: &Inventory<'_>) -> Positions<'a, 's>
    requires rest { AreSmall (2 ^ 125) rest }
    requires taken { AreSmall (2 ^ 125) taken.now }
    ensures { HasAllLeft taken.now result rest.entry }
{
    let mut part = rest;
    while let Some(before) = before_gone(&part, taken) {
        part = before;
    }
    part
}

/// A rest without the positions at both ends of which nothing is left.
pub(crate) fn without_gone<'s, 'a>(
    rest: Positions<'a, 's>,
    taken: &Inventory<'_>,
) -> Positions<'a, 's>
    requires rest { AreSmall (2 ^ 125) rest }
    requires taken { AreSmall (2 ^ 125) taken.now }
    ensures { HasAllLeft taken.now result rest.entry }
{
    let behind = without_first_gone(rest, taken);
    let mut part = without_last_gone(behind, taken);
    part.trim();
    part
}

/// The rest of each account from which a transaction took. Of any other it is all that it held.
pub struct Rests<'a, 's> {
    rests: IndexMap<Account<'a>, Positions<'a, 's>>,
}

/// Written out, so that what gives one up needs to know nothing of what is in it.
impl Drop for Rests<'_, '_> {
    fn drop(self) {
        let Rests { rests: _ } = self;
    }
}

impl<'a, 's> Rests<'a, 's> {
    /// Nothing is taken. Takes no memory.
    pub fn new(alloc: Global) -> Rests<'a, 's>
        ensures { (a : List ℕ) (held : List Position) → rest_in result a held ≡ held }
    {
        Rests {
            rests: IndexMap::new(alloc),
        }
    }

    /// The rest of an account, which held so much before.
    pub fn of(&self, account: &Account<'a>, held: &'s Inventory<'a>) -> Positions<'a, 's>
        ensures { result ≡ rest_in self.now account.now held.now }
    {
        match self.rests.get(account) {
            Some(rest) => rest.lend(),
            None => held.positions(),
        }
    }

    /// The rest of an account once more is taken under a key; `taken` is what was before. Where
    /// nothing was left there, the lot may be one that was passed, and all is looked at anew. None
    /// where this is the first take: it is passed with the next, so that one alone costs nothing.
    pub fn before_take(
        &self,
        account: &Account<'a>,
        held: &'s Inventory<'a>,
        taken: &Inventory<'_>,
        key: &Key<'_>,
    ) -> Option<Positions<'a, 's>>
        requires rest { HasAllLeft taken.now (rest_in self.now account.now held.now) held.now }
        requires fits { FitsSigned w128 (count_of held.now key.now +ℤ count_of taken.now key.now) }
        ensures some { IfSome result (λ rest. (n : ℤ)
            → HasAllLeft (added taken.now key.now n) rest held.now) }
        ensures none { IfNone result ((n : ℤ)
            → HasAllLeft (added taken.now key.now n) (rest_in self.now account.now held.now) held.now) }
    {
        let held_count = held.get(key);
        if taken.is_bare() {
            return None;
        }
        if held_count + taken.get(key) == 0 {
            return Some(held.positions());
        }
        Some(self.of(account, held))
    }

    /// Puts another rest in place of that of an account.
    pub fn set(&mut self, account: Account<'a>, rest: Positions<'a, 's>) -> Result<(), AllocError>
        ensures { OnOk result ((a : List ℕ) (held : List Position) → rest_in self.new a held
            ≡ (if bytes_eq account.entry a then rest.entry else rest_in self.old a held)) }
    {
        match self.rests.insert(account, rest) {
            Ok(_) => Ok(()),
            Err(_) => Err(AllocError),
        }
    }
}
