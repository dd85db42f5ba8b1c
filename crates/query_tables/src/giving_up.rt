//! The table of an answer whose rows are given up as they are printed.
ghost use Rattle.std.specs.Prelude.{◌≡◌, [], All, IfOk, OnOk, length};
ghost use Rattle.posting_table.specs.Decimals.{decimals_of};
ghost use Rattle.table_printer.specs.Printing.{IsPrinted, columns_of};
ghost use Rattle.table_printer.specs.Table.{table_text};

use bean_base::{List, Slice};
use posting_table::Display;
use query_answer::{Answer, AnswerRows};
use std::alloc::{AllocError, Global};
use std::mem::{forget, replace};
use table_printer::{AnswerTable, Printer, TableText};

/// How many rows are printed before they are given up.
const ROWS: usize = 512;

/// Prints rows part by part, and gives up each part that is printed: so the text comes to lie where
/// the counts of its inventories were.
fn print_parts<'a>(
    printer: &mut Printer<'_>,
    names: &List<Slice<'a>>,
    rows: &mut AnswerRows<'a>,
    display: &Display<'_>,
) -> Result<(), AllocError>
    requires even { All (λ row. length row ≡ columns_of printer.old) rows.old }
    requires begun { IsPrinted names.now rows.old [] (decimals_of display.now) printer.old }
    ensures { OnOk result (IsPrinted names.now rows.old rows.old (decimals_of display.now) printer.new) }
{
    let mut first = 0;
    while first < rows.len() {
        let end = first.saturating_add(ROWS).min(rows.len());
        let part = AnswerTable {
            names,
            rows,
            first,
            end,
        };
        printer.push(&part, display)?;
        rows.give_up(first, end);
        first = end;
    }
    Ok(())
}

/// The table of an answer, each of whose rows has as many cells as there are columns.
pub(crate) fn print_and_give_up(
    alloc: Global,
    answer: Answer<'_>,
    display: &Display<'_>,
) -> Result<TableText, AllocError>
    requires { All (λ row. length row ≡ length answer.headers) answer.rows }
    ensures { IfOk result (λ text. text
        ≡ table_text answer.entry.headers answer.entry.rows (decimals_of display.now)) }
{
    // Rows that change lend no names.
    let mut names = answer;
    let mut rows = replace(&mut names.rows, AnswerRows::new(alloc));
    let none = AnswerTable::of(&names);
    let whole = AnswerTable {
        names: none.names,
        rows: &rows,
        first: 0,
        end: rows.len(),
    };
    let mut printer = Printer::new(alloc, &none, &whole, display)?;
    print_parts(&mut printer, none.names, &mut rows, display)?;
    let text = printer.into_text(display)?;
    // Nulls are left, and to give them up looks at each.
    forget(rows);
    Ok(text)
}
