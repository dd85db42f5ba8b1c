//! The text of a table.
ghost use Rattle.std.specs.Prelude.{◌≡◌, ◌++◌, length, map, All, OnOk, IfOk};
ghost use Rattle.std.specs.List.{flat_map};
ghost use Rattle.posting_table.specs.Decimals.{decimals_of};
ghost use Rattle.table_printer.specs.Growing.{grown};
ghost use Rattle.table_printer.specs.Heading.{width_of};
ghost use Rattle.table_printer.specs.Table.{text_of, line_of, table_text};

use crate::growing::Growing;
use crate::headings::Heading;
use crate::lines::{RowLine, push_line};
use crate::printer::{Printer, Room};
use crate::rows::Rows;
use cell_texts::Scratch;
use posting_table::Display;
use std::alloc::{AllocError, Global};

/// A line for each row.
pub(crate) fn push_rows<T: Rows>(
    alloc: Global,
    out: &mut Growing,
    table: &T,
    headings: &[Heading<'_>],
    scratch: &mut Scratch,
    display: &Display<'_>,
) -> Result<(), AllocError>
    requires { All (λ row. length row ≡ length headings.now) (T.rows table.now) }
    ensures { OnOk result (grown out.new
        ≡ grown out.old ++ flat_map (line_of (map width_of headings.now))
        (map (map (text_of (decimals_of display.now))) (T.rows table.now))) }
{
    for number in 0..table.len() {
        out.make_room(alloc)?;
        let row = table.row(number);
        let line: RowLine<'_, T> = RowLine { row: &row };
        push_line(&mut out.last, scratch, &line, display, headings)?;
    }
    Ok(())
}

/// The most bytes a line for which room is taken beforehand: a row takes more memory than that.
const MOST_ROOM: usize = 128;

/// What a line takes in a column that isn't measured, and to be ended: what few positions go beyond.
const NOT_MEASURED: usize = 24;

/// How much room is taken beforehand, so that the text isn't moved while it grows: that of lines
/// which fill their columns, and one that isn't measured.
pub(crate) fn room_for(headings: &[Heading<'_>], rows: usize) -> usize {
    let mut line: usize = NOT_MEASURED;
    for heading in headings {
        line = line.saturating_add(heading.width).saturating_add(2);
    }
    line.min(MOST_ROOM).saturating_mul(rows.saturating_add(2))
}

/// The table of rows: each has as many cells as there are columns.
pub fn print<T: Rows>(
    alloc: Global,
    table: &T,
    display: &Display<'_>,
) -> Result<Vec<u8>, AllocError>
    requires { All (λ row. length row ≡ length (T.names table.now)) (T.rows table.now) }
    ensures { IfOk result (λ v. v.items
        ≡ table_text (T.names table.now) (T.rows table.now) (decimals_of display.now)) }
{
    let mut printer = Printer::begun(alloc, Room::Whole, table, table, display)?;
    printer.push(table, display)?;
    let text = printer.into_bytes(display)?;
    Ok(text)
}
