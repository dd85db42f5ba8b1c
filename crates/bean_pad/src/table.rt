//! Counts by account and currency, each account with those below it.
ghost use Rattle.std.specs.Prelude.{◌≡◌, ◌+ℤ◌, ◌<◌, ◌^◌, ◌&&◌, OnOk, List, ℕ, pos};
ghost use Rattle.std.specs.Prelude.{if◌then◌else◌};
ghost use Rattle.std.specs.Int.RustNames.{unsigned_abs};
ghost use Rattle.std.specs.Str.{bytes_eq};
ghost use Rattle.bean_pad.specs.Held.{is_within};
ghost use Rattle.bean_pad.specs.Table.{IsFar, entry_at};

use crate::counts::Counts;
use crate::tree::Tree;
use bean_base::Currency;
use std::alloc::{AllocError, Global};
use std::marker::Model;

/// Counts by account and currency, 0 where nothing was added.
pub(crate) struct Table<'a> {
    tree: Tree<'a>,
    counts: Counts<'a>,
}

/// Written out, so that what gives one up needs to know nothing of what is in it.
impl Drop for Table<'_> {
    fn drop(self) {
        let Table { tree: _, counts: _ } = self;
    }
}

impl<'a> Model for Table<'a> {
    ghost use Rattle.bean_pad.specs.Table as spec;

    ghost Value = { spec.Entries };

    ghost view = { λ t. record { nodes = t.tree; counts = t.counts.by_number.entries } };

    ghost invariant = { λ t. spec.HasNoOthers t.tree t.counts.by_number.entries };
}

impl<'a> Table<'a> {
    /// Every count at 0.
    pub fn new(alloc: Global) -> Table<'a>
        ensures { (a c : List ℕ) → entry_at result a c ≡ pos 0 }
    {
        Table {
            tree: Tree::new(alloc),
            counts: Counts::new(alloc),
        }
    }

    /// The count under an account and a currency.
    pub fn get(&self, account: &str, currency: &Currency<'_>) -> i128
        ensures { result ≡ entry_at self.now account.now currency.now }
    {
        match self.tree.find(account) {
            Some(number) => self.counts.get(number, currency),
            None => 0,
        }
    }

    /// Adds to the counts of an account and of those above it.
    pub fn add_up(
        &mut self,
        account: &'a str,
        currency: &Currency<'a>,
        count: i128,
    ) -> Result<(), AllocError>
        requires held { IsFar self.old }
        requires small { unsigned_abs count < 2 ^ 126 }
        ensures { OnOk result ((a c : List ℕ) → entry_at self.new a c
            ≡ (if is_within a account.now && bytes_eq currency.now c
            then entry_at self.old a c +ℤ count else entry_at self.old a c)) }
    {
        let mut number = self.tree.number(account)?;
        let mut below = None;
        while number > 0 {
            let place = self.counts.add(number, currency, count, below)?;
            below = Some(place);
            number = self.tree.above(number);
        }
        Ok(())
    }
}
