//! The rows that pads insert.
ghost use Rattle.std.specs.Prelude.{◌≡◌, ◌<◌, ◌≤◌, ◌+◌, ◌++◌, ◌^◌, IfOk, OnOk, length};
ghost use Rattle.std.specs.Int.RustNames.{unsigned_abs};
ghost use Rattle.bean_replay.specs.Small.{IsSmallNote, IsSmallNoted};
ghost use Rattle.limits.specs.declared.counts.TheConstants.{MOST_POSTINGS};
ghost use Rattle.bean_book.specs.Rows as spec;
ghost use Rattle.bean_book.specs.declared.details.Details as levels;

use crate::details::Details;
use crate::entries::padding_entry;
use bean_base::{Account, Currency};
use bean_lots::{Key, Position};
use bean_pad::{Note, NotedPad, Outcome};
use posting_entries::{Entry, Metadata, NoExtras, Shared};
use posting_table::{Ledger, Row, Weight};
use std::alloc::{AllocError, Global};

/// So much in an account, as a count of `10^-8`.
fn padding_row<'a>(
    entry: &Shared<Entry<'a>>,
    noted: &NotedPad<'a>,
    account: &Account<'a>,
    currency: &Currency<'a>,
    count: i128,
) -> Result<Row<'a>, AllocError>
    requires small { unsigned_abs count < 10 ^ 20 }
    ensures { IfOk result (λ row. row
        ≡ spec.padding_row entry.now noted.now account.now currency.now count) }
{
    Ok(Row {
        entry: entry.share()?,
        account: account.lend(),
        position: Position {
            key: Key {
                currency: currency.lend(),
                lot: None,
            },
            count,
        },
        weight: Weight {
            count: count * 100_000_000,
            currency: currency.lend(),
        },
        price: None,
        metadata: Metadata::empty(),
        line: noted.place.line,
        flag: None,
    })
}

/// Adds the rows that a pad inserts for one balance.
fn push_note<'a>(
    ledger: &mut Ledger<'a>,
    entry: &Shared<Entry<'a>>,
    noted: &NotedPad<'a>,
    note: &Note<'a>,
) -> Result<(), AllocError>
    requires entry { (details : levels.Details) × (entry.now ≡ spec.padding_entry details noted.now) }
    requires pad { IsSmallNoted noted.now }
    requires note { IsSmallNote note.now }
    requires room { length ledger.old.rows + length (spec.rows_of_note entry.now noted.now note.now)
        ≤ MOST_POSTINGS }
    ensures rows { OnOk result (ledger.new.rows
        ≡ ledger.old.rows ++ spec.rows_of_note entry.now noted.now note.now) }
    ensures decimals { OnOk result (ledger.new.decimals ≡ ledger.old.decimals) }
{
    let Outcome::Padding(number) = note.outcome else {
        return Ok(());
    };
    let count = number.scaled(8);
    let row = padding_row(entry, noted, &noted.pad.account, &note.currency, count)?;
    ledger.push(row)?;
    let row = padding_row(entry, noted, &noted.pad.source, &note.currency, -count)?;
    ledger.push(row)
}

/// Adds the rows that a pad inserts.
pub(crate) fn push_pad<'a>(
    alloc: Global,
    none: &NoExtras<'a>,
    details: Details,
    ledger: &mut Ledger<'a>,
    noted: &NotedPad<'a>,
) -> Result<(), AllocError>
    requires small { IsSmallNoted noted.now }
    requires room { length ledger.old.rows + length (spec.rows_of_pad details noted.now)
        ≤ MOST_POSTINGS }
    ensures rows { OnOk result (ledger.new.rows
        ≡ ledger.old.rows ++ spec.rows_of_pad details noted.now) }
    ensures decimals { OnOk result (ledger.new.decimals ≡ ledger.old.decimals) }
{
    let entry = padding_entry(alloc, none, details, noted)?;
    for note in noted.notes.as_slice() {
        push_note(ledger, &entry, noted, note)?;
    }
    Ok(())
}
