//! `list LEDGER`: the table of the postings of a ledger.
ghost use Rattle.std.specs.Prelude.{◌≡◌, ◌++◌, IfOk, List, OnOk, map};
ghost use Rattle.bq.specs.List.{headers, shown_row, table_of};
ghost use Rattle.posting_table.specs.Decimals.{decimals_of};
ghost use Rattle.posting_table.specs.declared.row.Row.{Row};
ghost use Rattle.query_values.specs.declared.value.Value.{Value};
ghost use Rattle.table_printer.specs.Printing.{IsPrinted, columns_of};

use crate::commands::ledger::Question;
use crate::given::Given;
use crate::shown::{Part, Postings};
use crate::text::Text;
use bean_book::Details;
use bean_books::book_of;
use bean_load::Texts;
use endings::{Refusal, Verdict};
use posting_table::{Display, Ledger, LedgerParts};
use std::alloc::{AllocError, Global};
use std::mem::forget;
use table_printer::{Printer, TableText};

/// Prints postings part by part, and gives up each part that is printed: so the text comes to lie where
/// they were.
fn print_parts(
    printer: &mut Printer<'_>,
    parts: &mut LedgerParts<'_>,
    display: &Display<'_>,
) -> Result<(), AllocError>
    requires { columns_of printer.old ≡ 4 }
    ensures { OnOk result ((all : List (List Value)) (done : List Row)
        → IsPrinted headers all (map shown_row done) (decimals_of display.now) printer.old
        → IsPrinted headers all (map shown_row (done ++ parts.old)) (decimals_of display.now)
        printer.new) }
{
    while let Some(part) = parts.next() {
        printer.push(&Part { rows: part.rows() }, display)?;
        part.give_up();
    }
    Ok(())
}

/// The table of a ledger's postings, which it has no longer then.
fn printed(alloc: Global, ledger: &mut Ledger<'_>) -> Result<TableText, AllocError>
    ensures { IfOk result (λ text. text ≡ table_of ledger.old) }
{
    let names = Part { rows: &[] };
    let mut printer = Printer::new(alloc, &names, &Postings { ledger }, ledger.display())?;
    let mut parts = ledger.take_parts()?;
    print_parts(&mut printer, &mut parts, ledger.display())?;
    let text = printer.into_text(ledger.display())?;
    Ok(text)
}

/// What the postings are that texts are booked as.
#[derive(Clone, Copy)]
pub struct Listing;

impl Question for Listing {
    ghost use Rattle.bq.specs.List.{Lists};

    ghost says = { λ _. Lists };

    fn answer<'w>(&self, alloc: Global, texts: Texts) -> Result<Given<'w>, Refusal> {
        // The table shows neither accounts of transactions, nor tags, links and metadata.
        let mut ledger = book_of(alloc, &texts, Details::Few)?;
        let text = printed(alloc, &mut ledger)?;
        // The process ends soon, and takes all memory back at once.
        forget(ledger);
        Ok(Given::Told(Verdict::Fine, Text::of_table(text)))
    }
}
