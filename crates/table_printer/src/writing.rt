//! Writing a table to an output.
ghost use Rattle.std.specs.Prelude.{◌≡◌, length, All};
ghost use Rattle.posting_table.specs.Decimals.{decimals_of};
ghost use Rattle.table_printer.specs.Writing.{WritesTable};
ghost use Rattle.table_printer.specs.Table.{table_text};

use crate::cause::PrintCause;
use crate::rows::Rows;
use crate::table::print;
use outputs::{Output, write_bytes};
use posting_table::Display;
use refusals::Refusal;
use std::alloc::Global;

/// Writes the table of rows: each has as many cells as there are columns. The whole text is made
/// before the first byte is handed over, so where memory lacks the output has none of it.
pub fn write_table<T: Rows, W: Output>(
    alloc: Global,
    table: &T,
    display: &Display<'_>,
    out: &mut W,
) -> Result<u64, Refusal<PrintCause>>
    requires { All (λ row. length row ≡ length (T.names table.now)) (T.rows table.now) }
    ensures { WritesTable W.Output out.old out.new
        (table_text (T.names table.now) (T.rows table.now) (decimals_of display.now)) result }
{
    let text = print(alloc, table, display)?;
    let written = write_bytes(out, &text);
    if written < text.len() {
        return Err(Refusal::Refused(PrintCause::NotWritten {
            written: written as u64,
        }));
    }
    Ok(written as u64)
}
