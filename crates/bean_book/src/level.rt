//! How much is told, as types tell it.
ghost use Rattle.std.specs.Prelude.{◌≡◌};

use crate::details::Details;

/// How much is told, as a type tells it: so it is known of what has taken all directives of a ledger
/// that as much was told at each.
pub(crate) trait Level: Sized + Drop {
    ghost use Rattle.bean_book.specs.declared.details.Details.{Details};

    /// So much.
    ghost level: { Details };

    /// How much is told.
    fn details(&self) -> Details
        ensures { result ≡ level };
}

/// Everything is told.
#[derive(Drop)]
pub(crate) struct AllIsTold;

impl Level for AllIsTold {
    ghost use Rattle.bean_book.specs.declared.details.Details.TheVariants.{All};

    ghost level = { All };

    fn details(&self) -> Details {
        Details::All
    }
}

/// All is told but the sets of accounts.
#[derive(Drop)]
pub(crate) struct AccountsAreUntold;

impl Level for AccountsAreUntold {
    ghost use Rattle.bean_book.specs.declared.details.Details.TheVariants.{ButAccounts};

    ghost level = { ButAccounts };

    fn details(&self) -> Details {
        Details::ButAccounts
    }
}

/// Few details are told.
#[derive(Drop)]
pub(crate) struct FewAreTold;

impl Level for FewAreTold {
    ghost use Rattle.bean_book.specs.declared.details.Details.TheVariants.{Few};

    ghost level = { Few };

    fn details(&self) -> Details {
        Details::Few
    }
}
