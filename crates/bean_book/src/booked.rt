//! A loaded ledger as it is booked, and its faults.
ghost use Rattle.bean_accounts.specs.declared.log.FaultLog.TheVariants as log;
ghost use Rattle.bean_book.specs.Booked.{Books};
ghost use Rattle.bean_book.specs.Found.{FindsFaults};
ghost use Rattle.bean_book.specs.Taken.{as_rows};
ghost use Rattle.bean_loaded.specs.Loaded as loading;
ghost use Rattle.bean_replay.specs.Booked.{IsBooked};
ghost use Rattle.bean_replay.specs.Small.{IsSmallNoted};
ghost use Rattle.std.specs.List.{AllByRecursion};

use crate::counts::{RowCount, count_pads};
use crate::details::Details;
use crate::faults::report;
use crate::ledger::{LedgerRows, ToldRows, with_pads};
use crate::level::{AccountsAreUntold, AllIsTold, FewAreTold, Level};
use bean_accounts::FaultLog;
use bean_base::{Fault, List};
use bean_loaded::Loaded;
use bean_replay::{BookCause, book_directives};
use posting_table::Ledger;
use refusals::Refusal;
use std::alloc::Global;

/// The ledger, once all directives are taken and their rows stand with so much told.
fn finish<'a>(
    details: Details,
    booked: bean_replay::Booked<'a, LedgerRows<'a>>,
) -> Result<Ledger<'a>, Refusal<BookCause>>
    requires booked { (l : loading.Loaded) × IsBooked (as_rows details) log.Off l booked }
    requires small { AllByRecursion IsSmallNoted booked.pads }
    ensures { (l : loading.Loaded) → IsBooked (as_rows details) log.Off l booked.entry
        → Books details l result }
{
    with_pads(details, booked.bookings, booked.pads.into_vec())
}

/// A loaded ledger as it is booked, with so much told as the type of the level tells.
fn book_at<'a, L: Level + 'a>(
    alloc: Global,
    loaded: Loaded<'a>,
    level: L,
) -> Result<Ledger<'a>, Refusal<BookCause>>
    ensures { Books L.level loaded.entry result }
{
    let details = level.details();
    let rows = LedgerRows::new(alloc)?;
    let booked = match book_directives(alloc, loaded, FaultLog::Off, ToldRows { rows, level }) {
        Ok(booked) => booked,
        Err(fault) => return Err(fault),
    };
    let told = booked.bookings;
    let booked = bean_replay::Booked {
        bookings: told.rows,
        pads: booked.pads,
        faults: booked.faults,
    };
    finish(details, booked)
}

/// The postings that a loaded ledger is booked as, with so much told of them and their transactions,
/// and how many decimals its currencies show. Faults that only tell of what is booked aren't looked
/// for: [`find_faults`] finds them.
pub fn book<'a>(
    alloc: Global,
    loaded: Loaded<'a>,
    details: Details,
) -> Result<Ledger<'a>, Refusal<BookCause>>
    ensures { Books details loaded.entry result }
{
    match details {
        Details::All => book_at(alloc, loaded, AllIsTold),
        Details::ButAccounts => book_at(alloc, loaded, AccountsAreUntold),
        Details::Few => book_at(alloc, loaded, FewAreTold),
    }
}

/// All that is wrong with a loaded ledger as it is booked, by file, then by line, then by number; equal
/// ones once.
pub fn find_faults(alloc: Global, loaded: Loaded<'_>) -> Result<List<Fault>, Refusal<BookCause>>
    ensures { FindsFaults loaded.entry result }
{
    let log = FaultLog::new(alloc);
    let booked = match book_directives(alloc, loaded, log, RowCount { count: 0 }) {
        Ok(booked) => booked,
        Err(fault) => return Err(fault),
    };
    match count_pads(booked.bookings.count, booked.pads.as_slice()) {
        Ok(_) => {}
        Err(fault) => return Err(fault),
    }
    let mut faults = booked.faults.into_found(alloc).into_vec();
    report(&mut faults)?;
    Ok(List::new(faults))
}
