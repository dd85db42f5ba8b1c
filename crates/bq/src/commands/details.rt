//! How much is told of a ledger that queries are answered over: the sets of the accounts of its
//! transactions are told to query files alone whose programs read them.
ghost use Rattle.std.specs.Prelude.{IfOk};
ghost use Rattle.std.specs.List.{AllByRecursion};
ghost use Rattle.bq.specs.Details.{Suffice};
ghost use Rattle.query_tables.specs.Unread.{FileNeedsNoAccounts};

use bean_base::List;
use bean_book::Details;
use query_tables::reads_accounts;
use std::alloc::{AllocError, Global};

/// What a query file needs.
pub fn details_for(alloc: Global, file: &[u8]) -> Result<Details, AllocError>
    ensures { IfOk result (λ details. Suffice details (FileNeedsNoAccounts file.now)) }
{
    if reads_accounts(alloc, file)? {
        return Ok(Details::All);
    }
    Ok(Details::ButAccounts)
}

/// What query files need, over one ledger.
pub fn details_for_all(alloc: Global, files: &[List<u8>]) -> Result<Details, AllocError>
    ensures { IfOk result (λ details.
        Suffice details (AllByRecursion FileNeedsNoAccounts files.now)) }
{
    for file in files {
        if reads_accounts(alloc, file.as_slice())? {
            return Ok(Details::All);
        }
    }
    Ok(Details::ButAccounts)
}
