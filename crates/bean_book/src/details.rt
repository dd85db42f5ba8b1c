//! How much of transactions and postings is told.
ghost use Rattle.std.specs.Prelude.{◌≡◌};

use given_items::Items;

/// How much is told of what few transactions and postings have, or few ask for: the sets of accounts,
/// tags, links and metadata. What isn't told is empty, and costs nothing. Nothing else of a ledger
/// hangs on it.
#[derive(Clone, Copy, Drop, PartialEq, Eq)]
pub enum Details {
    /// Everything.
    All,
    /// All but the set of the accounts of each transaction, which stands in the column `accounts`. To
    /// make it takes some 150 instructions for each posting, and a piece of memory for each
    /// transaction: this is for those who don't read that column.
    ButAccounts,
    /// Neither these sets, nor tags, links and metadata, of transactions and of postings: for those
    /// who read none of them.
    Few,
}

impl Details {
    ghost use Rattle.bean_book.specs.Details as spec;

    /// The metadata of a posting, as far as it is told.
    pub(crate) fn told<'r, T>(self, items: &'r [T]) -> &'r [T]
        ensures { result.now ≡ spec.told self items.now }
    {
        match self {
            Details::All | Details::ButAccounts => items,
            Details::Few => &[],
        }
    }

    /// The marks of a transaction, or its metadata, as far as they are told.
    pub(crate) fn items<'m, T: Drop>(self, all: Items<'m, T>) -> Items<'m, T>
        ensures { result ≡ spec.told self all.entry }
    {
        if matches!(self, Details::Few) {
            return Items::none();
        }
        all
    }
}
