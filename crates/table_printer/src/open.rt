//! Tables whose last column has no numbers. In a row nothing fills that column up to its width: so its
//! cells are measured where they are written, and the head of the table, which shows the width, comes
//! last.
ghost use Rattle.std.specs.Prelude.{◌≡◌, ◌<◌, ◌≤◌, ◌+◌, ◌++◌, ◌∷◌, [], ℕ, All, IfOk, IsTrue, OnOk, fold, length};
ghost use Rattle.std.specs.Prelude.{drop, false, map, max, take, vec_len};
ghost use Rattle.std.specs.List.{flat_map};
ghost use Rattle.posting_table.specs.Decimals.{decimals_of};
ghost use Rattle.table_printer.specs.Growing.{grown};
ghost use Rattle.table_printer.specs.Heading.{width_of};
ghost use Rattle.table_printer.specs.Line.{IsKept};
ghost use Rattle.table_printer.specs.Table.{HasNoNumber, is_number_at, line_of, table_text, text_of, width_at};

use crate::fronts::{Front, push_front};
use crate::growing::Growing;
use crate::headings::Heading;
use crate::lines::{RowLine, end_line, push_cells};
use crate::rows::Rows;
use cell_texts::{Scratch, is_number, push_cell};
use posting_table::Display;
use std::alloc::{AllocError, Global};

/// Whether no row has a number in a column.
pub(crate) fn has_no_number<T: Rows>(table: &T, column: usize) -> bool
    requires within { column < length (T.names table.now) }
    requires even { All (λ row. length row ≡ length (T.names table.now)) (T.rows table.now) }
    ensures { IsTrue result → HasNoNumber column (T.rows table.now) }
{
    for number in 0..table.len() {
        let row = table.row(number);
        if is_number(&T::cell(&row, column)) {
            return false;
        }
    }
    true
}

/// The line of a row whose last cell stands left: whatever fills that up to its column's width, it is
/// no part of the line. Tells how wide the cell is.
#[inline(always)]
fn push_open_line<T: Rows>(
    out: &mut Vec<u8>,
    scratch: &mut Scratch,
    row: &T::Row,
    display: &Display<'_>,
    headings: &[Heading<'_>],
    front: usize,
    kept: &mut Option<Front<T::Row>>,
) -> Result<usize, AllocError>
    requires many { length (T.values row.now) ≡ length headings.now + 1 }
    requires front { front ≤ length headings.now }
    requires kept { IsKept T.values (decimals_of display.now) (map width_of headings.now) front kept.old }
    requires left { is_number_at (length headings.now) (T.values row.now) ≡ false }
    ensures line { IfOk result (λ own. (w : ℕ) → out.new.items ≡ out.old.items
        ++ line_of (map width_of headings.now ++ w ∷ [])
        (map (text_of (decimals_of display.now)) (T.values row.now))) }
    ensures own { IfOk result (λ own. own ≡ width_at (length headings.now)
        (map (text_of (decimals_of display.now)) (T.values row.now))) }
    ensures kept { OnOk result (IsKept T.values (decimals_of display.now) (map width_of headings.now)
        front kept.new) }
{
    let start = out.len();
    let line: RowLine<'_, T> = RowLine { row };
    push_front::<T>(out, scratch, row, display, headings, front, kept)?;
    push_cells(
        out,
        scratch,
        &line,
        display,
        headings,
        front,
        headings.len(),
    )?;
    let own = push_cell(out, &T::cell(row, headings.len()), display, scratch)?;
    end_line(out, start)?;
    Ok(own)
}

/// A line for each row. Tells the greatest width in the last column, or `least`.
pub(crate) fn push_open_rows<T: Rows>(
    alloc: Global,
    out: &mut Growing,
    table: &T,
    headings: &[Heading<'_>],
    least: usize,
    scratch: &mut Scratch,
    display: &Display<'_>,
) -> Result<usize, AllocError>
    requires even { All (λ row. length row ≡ length headings.now + 1) (T.rows table.now) }
    requires left { HasNoNumber (length headings.now) (T.rows table.now) }
    ensures lines { IfOk result (λ most. (w : ℕ) → grown out.new ≡ grown out.old
        ++ flat_map (line_of (map width_of headings.now ++ w ∷ []))
        (map (map (text_of (decimals_of display.now))) (T.rows table.now))) }
    ensures most { IfOk result (λ most. most ≡ fold max least
        (map (width_at (length headings.now))
        (map (map (text_of (decimals_of display.now))) (T.rows table.now)))) }
{
    let front = table.front().min(headings.len());
    let mut kept = None;
    let mut most = least;
    for number in 0..table.len() {
        out.make_room(alloc)?;
        let row = table.row(number);
        let own = push_open_line::<T>(
            &mut out.last,
            scratch,
            &row,
            display,
            headings,
            front,
            &mut kept,
        )?;
        most = most.max(own);
    }
    Ok(most)
}
