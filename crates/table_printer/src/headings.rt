//! What stands over the columns of a table: their names, their widths, and whether numbers stand in
//! them.
ghost use Rattle.std.specs.Prelude.{◌≡◌, ◌<◌, length, map, slice_get, Some, IfOk, OnOk, All};
ghost use Rattle.std.specs.Prelude.{◌≤◌, take, vec_len};
ghost use Rattle.posting_table.specs.Decimals.{decimals_of};
ghost use Rattle.table_printer.specs.Heading.{bare_heading, heading_text, width_of, with_cell};
ghost use Rattle.table_printer.specs.Heading.{with_row};
ghost use Rattle.table_printer.specs.Line.{AreAlike};
ghost use Rattle.table_printer.specs.Table.{text_of, headers_from, widths_of};

use crate::rows::Rows;
use bean_base::Slice;
use cell_texts::{Cell, Scratch, cell_width, is_number, wider};
use posting_table::Display;
use std::alloc::{AllocError, Global};

/// The head of a column, as its name and the rows make it.
#[derive(Drop)]
pub(crate) struct Heading<'a> {
    pub name: Slice<'a>,
    /// How many columns of a terminal it takes.
    pub width: usize,
    pub has_numbers: bool,
}

/// The heading of a column without rows: as wide as its name, and at least 1.
pub(crate) fn heading_of<'t, T: Rows>(
    scratch: &mut Scratch,
    table: &'t T,
    column: usize,
    display: &Display<'_>,
) -> Result<Heading<'t>, AllocError>
    requires { column < length (T.names table.now) }
    ensures name { IfOk result (λ h. Some h.name ≡ slice_get (T.names table.now) column) }
    ensures bare { IfOk result (λ h. h ≡ bare_heading h.name) }
{
    let name = table.name(column);
    let cell = Cell::text(name);
    let width = cell_width(&cell, display, scratch)?.max(1);
    Ok(Heading {
        name: Slice::new(name),
        width,
        has_numbers: false,
    })
}

/// The headings of the first columns of a table without rows, in their order.
fn bare_headings<'t, T: Rows>(
    alloc: Global,
    table: &'t T,
    count: usize,
    scratch: &mut Scratch,
    display: &Display<'_>,
) -> Result<Vec<Heading<'t>>, AllocError>
    requires { count ≤ length (T.names table.now) }
    ensures bare { IfOk result (λ v. v.items ≡ map bare_heading (take count (T.names table.now))) }
    ensures len { IfOk result (λ v. vec_len v ≡ count) }
{
    let mut headings = Vec::with_capacity(alloc, count)?;
    for column in 0..count {
        headings.push(heading_of(scratch, table, column, display)?)?;
    }
    Ok(headings)
}

/// Makes a heading as wide as a cell, where it is less, and notes whether the cell is a number.
#[inline(always)]
fn widen(
    cell: &Cell<'_>,
    display: &Display<'_>,
    scratch: &mut Scratch,
    heading: &mut Heading<'_>,
) -> Result<(), AllocError>
    ensures { OnOk result (heading.new
        ≡ with_cell (decimals_of display.now) heading.old cell.now) }
{
    heading.width = wider(heading.width, cell, display, scratch)?;
    if is_number(cell) {
        heading.has_numbers = true;
    }
    Ok(())
}

/// The same for all cells of a row that stand under headings, of which the first change nothing.
#[inline(always)]
fn widen_all<T: Rows>(
    scratch: &mut Scratch,
    row: &T::Row,
    known: usize,
    display: &Display<'_>,
    headings: &mut [Heading<'_>],
) -> Result<(), AllocError>
    requires many { length headings.old ≤ length (T.values row.now) }
    requires known { with_row (decimals_of display.now) headings.old (take known (T.values row.now))
        ≡ headings.old }
    ensures { OnOk result (headings.new
        ≡ with_row (decimals_of display.now) headings.old (T.values row.now)) }
{
    for column in known..headings.len() {
        widen(
            &T::cell(row, column),
            display,
            scratch,
            &mut headings[column],
        )?;
    }
    Ok(())
}

/// How many cells at the front of a row are those of the row before, which were measured.
#[inline(always)]
fn alike<T: Rows>(row: &T::Row, before: &Option<T::Row>) -> usize
    ensures { AreAlike T.values result row.now before.now }
{
    match before {
        Some(before) => T::alike(row, before),
        None => 0,
    }
}

/// The headings of the first columns of a table, in their order. Its rows are passed once, since they
/// lie far apart.
pub(crate) fn headings<'t, N: Rows, T: Rows>(
    alloc: Global,
    names: &'t N,
    table: &T,
    count: usize,
    scratch: &mut Scratch,
    display: &Display<'_>,
) -> Result<Vec<Heading<'t>>, AllocError>
    requires names { N.names names.now ≡ T.names table.now }
    requires even { All (λ row. length row ≡ length (T.names table.now)) (T.rows table.now) }
    requires few { count ≤ length (T.names table.now) }
    ensures headers { IfOk result (λ v. map heading_text v.items
        ≡ headers_from 0 (T.rows table.now) (take count (T.names table.now))) }
    ensures widths { IfOk result (λ v. map width_of v.items
        ≡ widths_of (headers_from 0 (T.rows table.now) (take count (T.names table.now)))
        (map (map (text_of (decimals_of display.now))) (T.rows table.now))) }
    ensures len { IfOk result (λ v. vec_len v ≡ count) }
{
    let mut headings = bare_headings(alloc, names, count, scratch, display)?;
    let mut before = None;
    for number in 0..table.len() {
        let row = table.row(number);
        let known = alike::<T>(&row, &before);
        widen_all::<T>(scratch, &row, known, display, &mut headings)?;
        before = Some(row);
    }
    Ok(headings)
}
