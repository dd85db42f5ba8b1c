//! The rows of kept transactions.
ghost use Rattle.std.specs.Prelude.{◌≡◌, ◌<◌, ◌≤◌, ◌+◌, ◌++◌, ◌∷◌, [], ℕ, IfOk, IfSome, IsTrue};
ghost use Rattle.std.specs.Prelude.{OnOk, length, slice_get};
ghost use Rattle.bean_interp.specs.Residual.{IsLight};
ghost use Rattle.bean_transactions.specs.Tried.{booked_leg, whole_at};
ghost use Rattle.limits.specs.declared.counts.TheConstants.{MOST_POSTINGS};
ghost use Rattle.posting_table.specs.Plain as plain;
ghost use Rattle.posting_table.specs.Shaped.{IsShaped};
ghost use Rattle.query_rows.specs.ColumnShape.{widest};
ghost use Rattle.bean_book.specs.Plain.{IsPlain};
ghost use Rattle.bean_book.specs.Rows as spec;
ghost use Rattle.bean_book.specs.Tame.{IsTameKept};
ghost use Rattle.bean_book.specs.declared.details.Details as levels;

use crate::details::Details;
use crate::entries::entry_of;
use crate::metadata::metadata_of;
use bean_base::Amount;
use bean_holdings::Posted;
use bean_lots::{Key, Position};
use bean_postings::{Price, WrittenPosting};
use bean_replay::Kept;
use bean_transactions::whole;
use given_items::Items;
use posting_entries::{Entry, Metadata, NoExtras, Shared};
use posting_table::{Ledger, PlainRow, Row, Weight};
use std::alloc::{AllocError, Global};

/// The metadata of a written posting, as far as it is told, for all that the posting is booked as.
#[derive(Drop)]
struct Noted<'a> {
    /// The number of the posting.
    written: usize,
    metadata: Metadata<'a>,
}

/// The metadata of the written posting of that number, as far as it is told: none where there is no
/// such posting.
fn noted_at<'a>(
    alloc: Global,
    details: Details,
    postings: &[WrittenPosting<'a>],
    written: usize,
) -> Result<Noted<'a>, AllocError>
    ensures number { IfOk result (λ noted. noted.written ≡ written) }
    ensures items { IfOk result (λ noted. noted.metadata
        ≡ spec.items_in details (slice_get postings.now written)) }
{
    let metadata = match postings.get(written) {
        Some(posting) => metadata_of(alloc, Items::of(details.told(posting.metadata())))?,
        None => Metadata::empty(),
    };
    Ok(Noted { written, metadata })
}

/// Before any metadata is looked at: that of the posting behind the last, which isn't there.
fn noted_nowhere<'a>(postings: &[WrittenPosting<'a>]) -> Noted<'a>
    ensures { (details : levels.Details) → result.metadata
        ≡ spec.items_in details (slice_get postings.now result.written) }
{
    Noted {
        written: postings.len(),
        metadata: Metadata::empty(),
    }
}

/// Goes on to the metadata of the written posting of that number, which most often is at hand.
fn go_on<'a>(
    alloc: Global,
    details: Details,
    postings: &[WrittenPosting<'a>],
    noted: &mut Noted<'a>,
    written: usize,
) -> Result<(), AllocError>
    requires { noted.old.metadata
        ≡ spec.items_in details (slice_get postings.now noted.old.written) }
    ensures number { OnOk result (noted.new.written ≡ written) }
    ensures items { OnOk result (noted.new.metadata
        ≡ spec.items_in details (slice_get postings.now written)) }
{
    if noted.written == written {
        return Ok(());
    }
    *noted = noted_at(alloc, details, postings, written)?;
    Ok(())
}

/// What a booked posting weighs.
fn weight_of<'a>(postings: &[WrittenPosting<'a>], posted: &Posted<'a>) -> Weight<'a>
    requires { IsLight (booked_leg postings.now posted.now) }
    ensures { result
        ≡ spec.weight_by (whole_at (slice_get postings.now posted.now.written) posted.now) }
{
    match whole(postings, posted).weight() {
        Ok(weight) => Weight {
            count: weight.count,
            currency: weight.currency,
        },
        Err(_) => unreachable!(),
    }
}

/// What is added to an account, and as what it is held.
fn position_of<'a>(posted: &Posted<'a>) -> Position<'a>
    ensures { result ≡ spec.position_of posted.now }
{
    Position {
        key: Key {
            currency: posted.units.currency.lend(),
            lot: posted.lend_lot(),
        },
        count: posted.units.number.scaled(8),
    }
}

/// What a unit of a written posting is priced at.
fn price_of<'a>(written: &WrittenPosting<'a>) -> Option<Amount<'a>>
    ensures { result ≡ spec.unit_price written.now.details.price }
{
    match &written.details()?.price {
        Price::PerUnit(price) => Some(price.get().lend()),
        _ => None,
    }
}

/// Whether a posting has nothing of its own but what it adds to its account.
fn is_plain(written: &WrittenPosting<'_>, posted: &Posted<'_>) -> bool
    ensures { IsTrue result → IsPlain written.now posted.now }
{
    match written.details() {
        Some(_) => false,
        None => posted.lot.is_none(),
    }
}

/// The row of a booked posting that has nothing of its own but what it adds to its account.
fn plain_row<'a>(
    entry: &Shared<Entry<'a>>,
    postings: &[WrittenPosting<'a>],
    posted: &Posted<'a>,
) -> Result<Option<PlainRow<'a>>, AllocError>
    ensures { IfOk result (λ found. IfSome found (λ row. (details : levels.Details) (line : ℕ)
        → plain.row_of row ≡ spec.row_of details entry.now line postings.now posted.now)) }
{
    let Some(written) = postings.get(posted.written) else {
        return Ok(None);
    };
    if !is_plain(written, posted) {
        return Ok(None);
    }
    Ok(Some(PlainRow {
        entry: entry.share()?,
        account: posted.account.lend(),
        currency: posted.units.currency.lend(),
        count: posted.units.number.scaled(8),
        line: written.line(),
    }))
}

/// The row of a booked posting that has this metadata, and the price of the written one.
fn row_of<'a>(
    entry: &Shared<Entry<'a>>,
    line: usize,
    postings: &[WrittenPosting<'a>],
    metadata: Metadata<'a>,
    posted: &Posted<'a>,
) -> Result<Row<'a>, AllocError>
    requires { IsLight (booked_leg postings.now posted.now) }
    ensures { IfOk result (λ row. row
        ≡ spec.row_by entry.now line metadata.entry (slice_get postings.now posted.now.written)
        posted.now) }
{
    let (line, flag, price) = match postings.get(posted.written) {
        Some(written) => (written.line(), written.flag(), price_of(written)),
        None => (line, None, None),
    };
    Ok(Row {
        entry: entry.share()?,
        account: posted.account.lend(),
        position: position_of(posted),
        weight: weight_of(postings, posted),
        price,
        metadata,
        line,
        flag,
    })
}

/// Adds the row of a posting that has more of its own than what it adds to its account. It is a
/// function of its own, so that any other makes no room for such a row.
#[inline(never)]
fn push_full<'a>(
    ledger: &mut Ledger<'a>,
    entry: &Shared<Entry<'a>>,
    line: usize,
    postings: &[WrittenPosting<'a>],
    metadata: &Metadata<'a>,
    posted: &Posted<'a>,
) -> Result<(), AllocError>
    requires light { IsLight (booked_leg postings.now posted.now) }
    requires room { length ledger.old.rows < MOST_POSTINGS }
    requires shaped { IsShaped widest (spec.row_by entry.now line metadata.now
        (slice_get postings.now posted.now.written) posted.now) }
    ensures rows { OnOk result (ledger.new.rows
        ≡ ledger.old.rows ++ spec.row_by entry.now line metadata.now
        (slice_get postings.now posted.now.written) posted.now ∷ []) }
    ensures decimals { OnOk result (ledger.new.decimals ≡ ledger.old.decimals) }
{
    let metadata = metadata.share()?;
    let row = row_of(entry, line, postings, metadata, posted)?;
    ledger.push(row)?;
    Ok(())
}

/// Adds the rows of the postings of a transaction that is kept.
fn push_posted<'a>(
    alloc: Global,
    details: Details,
    ledger: &mut Ledger<'a>,
    entry: &Shared<Entry<'a>>,
    kept: &Kept<'a>,
) -> Result<(), AllocError>
    requires entry { entry.now ≡ spec.entry_of details kept.now }
    requires tame { IsTameKept kept.now }
    requires room { length ledger.old.rows + length kept.now.postings ≤ MOST_POSTINGS }
    ensures rows { OnOk result (ledger.new.rows
        ≡ ledger.old.rows ++ spec.rows_with details entry.now kept.now) }
    ensures decimals { OnOk result (ledger.new.decimals ≡ ledger.old.decimals) }
{
    let line = kept.written.place().line;
    let postings = kept.written.transaction().postings.as_slice();
    let mut noted = noted_nowhere(postings);
    for one in kept.postings.as_slice() {
        if let Some(plain) = plain_row(entry, postings, one)? {
            ledger.push_plain(plain)?;
            continue;
        }
        go_on(alloc, details, postings, &mut noted, one.written)?;
        push_full(ledger, entry, line, postings, &noted.metadata, one)?;
    }
    Ok(())
}

/// Adds the rows of a transaction that is kept.
pub(crate) fn push_transaction<'a>(
    alloc: Global,
    none: &NoExtras<'a>,
    details: Details,
    ledger: &mut Ledger<'a>,
    kept: &Kept<'a>,
) -> Result<(), AllocError>
    requires tame { IsTameKept kept.now }
    requires room { length ledger.old.rows + length kept.now.postings ≤ MOST_POSTINGS }
    ensures rows { OnOk result (ledger.new.rows
        ≡ ledger.old.rows ++ spec.rows_of_transaction details kept.now) }
    ensures decimals { OnOk result (ledger.new.decimals ≡ ledger.old.decimals) }
{
    let entry = entry_of(alloc, none, details, kept)?;
    push_posted(alloc, details, ledger, &entry, kept)
}
