//! The lines of a table: the header line, the rule and the rows.
ghost use Rattle.std.specs.Prelude.{◌≡◌, ◌<◌, ◌≤◌, ◌++◌, ◌∷◌, [], List, ℕ, Some, length, vec_len, map};
ghost use Rattle.std.specs.Prelude.{take, drop, false, slice_get, OnOk, IfOk};
ghost use Rattle.std.specs.List.{flat_map};
ghost use Rattle.bean_base.specs.Character.{line_feed};
ghost use Rattle.posting_table.specs.Decimals.{decimals_of};
ghost use Rattle.table_printer.specs.Heading.{width_of};
ghost use Rattle.table_printer.specs.Layout.{Leaves, before_gap, trimmed, joined, rule_of, gap};
ghost use Rattle.table_printer.specs.Line.{placed_text, row_cells};
ghost use Rattle.table_printer.specs.Table.{padded, pieces, line_of};
ghost use Rattle.table_printer.specs.declared.lines.Placed.{Placed};

use crate::headings::Heading;
use crate::rows::Rows;
use cell_texts::{Cell, Scratch, is_number, push_cell, push_left, push_right, push_text_or_day};
use number_texts::push_run;
use posting_table::Display;
use std::alloc::AllocError;

/// A cell, and whether it stands at the right of its column.
#[derive(Drop)]
pub(crate) struct Placed<'a> {
    pub cell: Cell<'a>,
    pub stands_right: bool,
}

/// A line of cells.
pub(crate) trait Line {
    /// The cells, from left to right.
    ghost cells: { Self → List Placed };

    /// The cell in a column.
    fn cell(&self, column: usize) -> Placed<'_>
        requires { column < length (cells self.now) }
        ensures { Some result ≡ slice_get (cells self.now) column };
}

/// The names of the columns; a name stands right over numbers.
#[derive(Clone, Copy)]
pub(crate) struct HeaderLine<'c, 't> {
    pub headings: &'c [Heading<'t>],
}

impl Line for HeaderLine<'_, '_> {
    ghost use Rattle.table_printer.specs.Line.{header_cells};

    ghost cells = { λ line. header_cells line.headings.now };

    fn cell(&self, column: usize) -> Placed<'_> {
        let heading = &self.headings[column];
        Placed {
            cell: Cell::text(heading.name.text()),
            stands_right: heading.has_numbers,
        }
    }
}

/// What a row has in a column; numbers stand right.
#[inline(always)]
fn row_cell<'r, T: Rows>(row: &'r T::Row, column: usize) -> Placed<'r>
    requires { column < length (T.values row.now) }
    ensures { Some result ≡ slice_get (row_cells (T.values row.now)) column }
{
    let cell = T::cell(row, column);
    let stands_right = is_number(&cell);
    Placed { cell, stands_right }
}

/// A row.
#[derive(Clone, Copy)]
pub(crate) struct RowLine<'t, T: Rows> {
    pub row: &'t T::Row,
}

impl<T: Rows> Line for RowLine<'_, T> {
    ghost use Rattle.table_printer.specs.Line.{row_cells};

    ghost cells = { λ line. row_cells (T.values line.row.now) };

    #[inline(always)]
    fn cell(&self, column: usize) -> Placed<'_> {
        row_cell::<T>(self.row, column)
    }
}

/// How many bytes are left without the spaces at the end.
#[tactic(auto, using(crate::proofs::LayoutFacts::shorter, crate::proofs::LayoutFacts::stays))]
fn trimmed_len(bytes: &[u8]) -> usize
    ensures trimmed { take result bytes.now ≡ trimmed bytes.now }
    ensures inside { result ≤ length bytes.now }
{
    let mut n = bytes.len();
    while n > 0 && bytes[n - 1] == b' ' {
        n -= 1;
    }
    n
}

/// How many spaces stand between two columns.
const GAP: usize = 2;

/// What stands before a column of the rule.
fn push_gap(out: &mut Vec<u8>, column: usize) -> Result<(), AllocError>
    ensures { OnOk result (out.new.items ≡ out.old.items ++ gap column) }
{
    if column > 0 {
        out.extend_from_slice(b"  ")?;
    }
    Ok(())
}

/// A cell of any kind at the left of its column, and the gap behind it. The cell that it lends is made in
/// memory: it stays out of what is done for each text and day.
#[inline(never)]
fn push_any_placed<L: Line>(
    out: &mut Vec<u8>,
    scratch: &mut Scratch,
    line: &L,
    column: usize,
    width: usize,
    display: &Display<'_>,
) -> Result<(), AllocError>
    requires { column < length (L.cells line.now) }
    ensures { OnOk result ((placed : Placed) → Some placed ≡ slice_get (L.cells line.now) column
        → placed.stands_right ≡ false → out.new.items ≡ out.old.items
        ++ before_gap (padded width (placed_text (decimals_of display.now) placed))) }
{
    let placed = line.cell(column);
    push_left(out, &placed.cell, width, GAP, display, scratch)
}

/// A cell in its column, and the gap behind it. The cell is made where it is looked at.
#[inline(always)]
fn push_placed<L: Line>(
    out: &mut Vec<u8>,
    scratch: &mut Scratch,
    line: &L,
    column: usize,
    width: usize,
    display: &Display<'_>,
) -> Result<(), AllocError>
    requires { column < length (L.cells line.now) }
    ensures { OnOk result ((placed : Placed) → Some placed ≡ slice_get (L.cells line.now) column
        → out.new.items ≡ out.old.items
        ++ before_gap (padded width (placed_text (decimals_of display.now) placed))) }
{
    if line.cell(column).stands_right {
        let placed = line.cell(column);
        push_right(out, &placed.cell, width, GAP, display, scratch)?;
        return Ok(());
    }
    let placed = line.cell(column);
    if push_text_or_day(out, &placed.cell, width, GAP, scratch)? {
        return Ok(());
    }
    push_any_placed(out, scratch, line, column, width, display)
}

/// The cells of a line from one column up to another, each in its column and with the gap behind it.
#[inline(always)]
pub(crate) fn push_cells<L: Line>(
    out: &mut Vec<u8>,
    scratch: &mut Scratch,
    line: &L,
    display: &Display<'_>,
    headings: &[Heading<'_>],
    from: usize,
    to: usize,
) -> Result<(), AllocError>
    requires order { from ≤ to }
    requires within { to ≤ length headings.now }
    requires many { length headings.now ≤ length (L.cells line.now) }
    ensures { OnOk result ((before : List ℕ) → out.old.items ≡ before ++ flat_map before_gap
        (take from (pieces (map width_of headings.now)
        (map (placed_text (decimals_of display.now)) (L.cells line.now))))
        → out.new.items ≡ before ++ flat_map before_gap
        (take to (pieces (map width_of headings.now)
        (map (placed_text (decimals_of display.now)) (L.cells line.now))))) }
{
    for column in from..to {
        push_placed(out, scratch, line, column, headings[column].width, display)?;
    }
    Ok(())
}

/// The last cell of a line. Tells how many spaces fill it up to its column's width.
#[inline(always)]
fn push_last<L: Line>(
    out: &mut Vec<u8>,
    scratch: &mut Scratch,
    line: &L,
    column: usize,
    width: usize,
    display: &Display<'_>,
) -> Result<usize, AllocError>
    requires { column < length (L.cells line.now) }
    ensures { IfOk result (λ left. (placed : Placed) → Some placed ≡ slice_get (L.cells line.now) column
        → Leaves out.old.items out.new.items left
        (padded width (placed_text (decimals_of display.now) placed))) }
{
    if line.cell(column).stands_right {
        let placed = line.cell(column);
        push_right(out, &placed.cell, width, 0, display, scratch)?;
        return Ok(0);
    }
    let placed = line.cell(column);
    let own = push_cell(out, &placed.cell, display, scratch)?;
    Ok(width.saturating_sub(own))
}

/// The cells of a line, each in its column. Tells how many spaces fill up the last.
fn push_joined<L: Line>(
    out: &mut Vec<u8>,
    scratch: &mut Scratch,
    line: &L,
    display: &Display<'_>,
    headings: &[Heading<'_>],
) -> Result<usize, AllocError>
    requires { length (L.cells line.now) ≡ length headings.now }
    ensures { IfOk result (λ left. Leaves out.old.items out.new.items left
        (joined (pieces (map width_of headings.now)
        (map (placed_text (decimals_of display.now)) (L.cells line.now))))) }
{
    let Some((last, front)) = headings.split_last() else {
        return Ok(0);
    };
    push_cells(out, scratch, line, display, front, 0, front.len())?;
    let left = push_last(out, scratch, line, front.len(), last.width, display)?;
    Ok(left)
}

/// Ends the line that begins at `start`: no spaces stand at its end.
pub(crate) fn end_line(out: &mut Vec<u8>, start: usize) -> Result<(), AllocError>
    requires { start ≤ vec_len out.old }
    ensures { OnOk result (out.new.items
        ≡ take start out.old.items ++ trimmed (drop start out.old.items) ++ line_feed ∷ []) }
{
    let len = trimmed_len(&out[start..]);
    out.truncate(start + len);
    out.push(b'\n')?;
    Ok(())
}

/// A line, without spaces at its end.
pub(crate) fn push_line<L: Line>(
    out: &mut Vec<u8>,
    scratch: &mut Scratch,
    line: &L,
    display: &Display<'_>,
    headings: &[Heading<'_>],
) -> Result<(), AllocError>
    requires { length (L.cells line.now) ≡ length headings.now }
    ensures { OnOk result (out.new.items ≡ out.old.items ++ line_of (map width_of headings.now)
        (map (placed_text (decimals_of display.now)) (L.cells line.now))) }
{
    let start = out.len();
    push_joined(out, scratch, line, display, headings)?;
    end_line(out, start)?;
    Ok(())
}

/// The line that rules off the header.
pub(crate) fn push_rule(out: &mut Vec<u8>, headings: &[Heading<'_>]) -> Result<(), AllocError>
    ensures { OnOk result (out.new.items ≡ out.old.items ++ rule_of (map width_of headings.now)) }
{
    for (i, heading) in headings.iter().enumerate() {
        push_gap(out, i)?;
        push_run(out, b'-', heading.width)?;
    }
    out.push(b'\n')?;
    Ok(())
}
