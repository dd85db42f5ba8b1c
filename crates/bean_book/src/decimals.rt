//! How many decimals currencies show.
ghost use Rattle.std.specs.Prelude.{◌≡◌, ℕ, List, OnOk, max, if◌then◌else◌};
ghost use Rattle.std.specs.List.{flat_map};
ghost use Rattle.std.specs.Str.{bytes_eq};
ghost use Rattle.posting_table.specs.Decimals.{decimals_of};
ghost use Rattle.bean_book.specs.Booked.{decimals_from};
ghost use Rattle.bean_book.specs.Rows.{written_in};

use bean_base::Currency;
use bean_postings::{Units, WrittenPosting};
use posting_table::Ledger;
use std::alloc::AllocError;

/// Shows at least so many decimals of a currency.
#[inline(always)]
fn note_places<'a>(
    ledger: &mut Ledger<'a>,
    near: &mut usize,
    places: u8,
    currency: Currency<'a>,
) -> Result<(), AllocError>
    ensures decimals { OnOk result ((name : List ℕ) → decimals_of ledger.new.decimals name
        ≡ (if bytes_eq currency.entry name
        then max (decimals_of ledger.old.decimals name) places
        else decimals_of ledger.old.decimals name)) }
    ensures rows { OnOk result (ledger.new.rows ≡ ledger.old.rows) }
{
    match ledger.display().set_near(&currency, near) {
        Some(shown) if places <= shown => Ok(()),
        // A currency that shows none is set too: so it is found at once where it is shown.
        _ => ledger.set_display(currency, places),
    }
}

/// Shows at least the decimals of the number that is written for a posting's units.
fn note_posting<'a>(
    ledger: &mut Ledger<'a>,
    near: &mut usize,
    posting: &WrittenPosting<'a>,
) -> Result<(), AllocError>
    ensures decimals { OnOk result ((name : List ℕ) → decimals_of ledger.new.decimals name
        ≡ decimals_from (decimals_of ledger.old.decimals name) name (written_in posting.now)) }
    ensures rows { OnOk result (ledger.new.rows ≡ ledger.old.rows) }
{
    match posting.units() {
        Units::Amount(units) => note_places(ledger, near, units.number.places, units.currency),
        _ => Ok(()),
    }
}

/// Shows at least the decimals of the numbers that are written for the postings' units. Where the
/// decimals of the last currency were found is told by `near`: most often the next is the same.
pub(crate) fn note_written<'a>(
    ledger: &mut Ledger<'a>,
    near: &mut usize,
    postings: &[WrittenPosting<'a>],
) -> Result<(), AllocError>
    ensures decimals { OnOk result ((name : List ℕ) → decimals_of ledger.new.decimals name
        ≡ decimals_from (decimals_of ledger.old.decimals name) name
        (flat_map written_in postings.now)) }
    ensures rows { OnOk result (ledger.new.rows ≡ ledger.old.rows) }
{
    for posting in postings {
        note_posting(ledger, near, posting)?;
    }
    Ok(())
}
