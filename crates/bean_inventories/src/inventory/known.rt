//! What is known of an inventory's lots, beside their slots. It lies apart from these, in memory
//! that is taken with the first lot, since most inventories have none.
ghost use Rattle.std.specs.Prelude.{◌≡◌, IfOk, List, None, OnErr, OnOk, ℕ};
ghost use Rattle.bean_inventories.specs.Known.{signs_in, signs_of};
ghost use Rattle.bean_inventories.specs.Recount.{AreFew, IsCounted, IsRecounted};
ghost use Rattle.bean_inventories.specs.Signs.{no_signs, signs_at};
ghost use Rattle.bean_inventories.specs.Table.{AreTold, IsTold};

use super::signs::{SignTable, Signs};
use super::table::{LotTable, table_with};
use bean_base::Currency;
use bean_lots::Key;
use key_counts::Run;
use std::alloc::{AllocError, Global};

/// The table that is there, or that of no lots.
fn table_of<'a>(
    alloc: Global,
    signs: Option<Box<SignTable<'a>>>,
) -> Result<Box<SignTable<'a>>, AllocError>
    ensures signs { IfOk result (λ t. (c : List ℕ) → signs_at t.value c ≡ signs_in signs.entry c) }
    ensures err { OnErr result (signs.entry ≡ None) }
{
    match signs {
        Some(signs) => Ok(signs),
        None => Ok(Box::new(alloc, SignTable::new(alloc))?),
    }
}

/// What is known of lots. Takes two words until the first lot comes.
#[derive(Drop)]
pub(crate) struct KnownLots<'a> {
    signs: Option<Box<SignTable<'a>>>,
    /// What is told of lots; none where there are few slots.
    pub told: Option<Box<LotTable<'a>>>,
}

impl<'a> KnownLots<'a> {
    /// No lots. Takes no memory.
    pub(crate) fn none() -> KnownLots<'a>
        ensures signs { (c : List ℕ) → signs_of result c ≡ no_signs }
        ensures told { result.told ≡ None }
    {
        KnownLots {
            signs: None,
            told: None,
        }
    }

    /// The signs of the lots of a currency.
    pub(crate) fn signs_of(&self, currency: &Currency<'_>) -> Signs
        ensures { result ≡ signs_of self.now currency.now }
    {
        match &self.signs {
            Some(signs) => signs.of(currency),
            None => Signs::none(),
        }
    }

    /// Counts what is held under a key, which becomes another count.
    pub(crate) fn recount(
        &mut self,
        alloc: Global,
        key: &Key<'a>,
        before: i128,
        after: i128,
    ) -> Result<(), AllocError>
        requires counted { IsCounted (signs_of self.old) key.now before }
        requires few { AreFew (signs_of self.old) }
        ensures ok { OnOk result
            (IsRecounted (signs_of self.old) key.now before after (signs_of self.new)) }
        ensures told { self.new.told ≡ self.old.told }
        ensures err { OnErr result ((c : List ℕ) → signs_of self.new c ≡ signs_of self.old c) }
    {
        if key.lot.is_none() {
            return Ok(());
        }
        let mut signs = table_of(alloc, self.signs.take())?;
        let counted = signs.recount(key, before, after);
        self.signs = Some(signs);
        counted
    }

    /// Notes the lot of a key that comes behind some slots.
    pub(crate) fn note(
        &mut self,
        alloc: Global,
        slots: &Run<'_, Key<'a>>,
        key: &Key<'a>,
    ) -> Result<(), AllocError>
        requires { AreTold self.old.told slots.now }
        ensures signs { (c : List ℕ) → signs_of self.new c ≡ signs_of self.old c }
        ensures slots { AreTold self.new.told slots.now }
        ensures own { OnOk result (IsTold self.new.told key.now.lot) }
    {
        self.told = table_with(alloc, self.told.take(), slots, key)?;
        Ok(())
    }
}
