//! Ledgers that the tests' programs run over.
ghost use Rattle.std.specs.Prelude.{IfOk};
ghost use Rattle.posting_table.specs.Parts.{HasShortTexts, HasSmallParts};

use bean_base::{Flag, parse_account, parse_currency, parse_day};
use bean_lots::{Key, Position};
use limits::MOST_POSTINGS;
use posting_entries::{Entry, EntryFlag, EntryParts, Metadata, NoExtras, PlainText, Shared};
use posting_table::{Ledger, Row, Weight};
use query_values::TextSet;
use std::alloc::Global;
use std::test::Fail;

/// What the postings of a lunch have in common.
fn lunch(alloc: Global) -> Result<Entry<'static>, Fail>
    ensures { IfOk result (λ entry. HasShortTexts entry) }
{
    let parts = EntryParts {
        payee: None,
        narration: PlainText::lent("Lunch"),
        tags: Shared::new(alloc, TextSet::empty(alloc))?,
        links: Shared::new(alloc, TextSet::empty(alloc))?,
        accounts: TextSet::empty(alloc),
        metadata: Metadata::empty(),
        date: parse_day("2014-01-02")?,
        flag: EntryFlag::Written(Flag::Complete),
    };
    let none = NoExtras::new(alloc)?;
    Ok(Entry::new(alloc, &none, parts)?)
}

/// A dollar that was paid.
fn dollar(entry: Shared<Entry<'static>>) -> Result<Row<'static>, Fail>
    requires { HasShortTexts entry }
    ensures { IfOk result (λ row. HasSmallParts row) }
{
    Ok(Row {
        entry,
        account: parse_account("Assets:Cash")?,
        position: Position {
            key: Key {
                currency: parse_currency("USD")?,
                lot: None,
            },
            count: -100_000_000,
        },
        weight: Weight {
            count: -10_000_000_000_000_000,
            currency: parse_currency("USD")?,
        },
        price: None,
        metadata: Metadata::empty(),
        line: 7,
        flag: None,
    })
}

/// A ledger of so many dollars.
#[tactic(auto, using(posting_table::proofs::PartFacts::row_lies))]
pub fn dollars(alloc: Global, count: usize) -> Result<Ledger<'static>, Fail> {
    let mut ledger = Ledger::new(alloc);
    for _ in 0..count {
        let entry = Shared::new(alloc, lunch(alloc)?)?;
        let row = dollar(entry)?;
        if ledger.len() < MOST_POSTINGS {
            ledger.push(row)?;
        }
    }
    Ok(ledger)
}
