//! Cells under others, as the widths of columns are found. Most take no more than what was measured
//! before them, and many tell it without being measured.
ghost use Rattle.std.specs.Prelude.{◌≡◌, ◌≤◌, ◌<◌, ◌+◌, ◌%◌, ◌^◌, IfOk, IsTrue, length, max};
ghost use Rattle.posting_table.specs.Decimals.{decimals_of};
ghost use Rattle.number_texts.specs.Digits.{number_text};
ghost use Rattle.cell_texts.specs.CellText.{cell_text, clean_text};
ghost use Rattle.cell_texts.specs.Width.{text_width};

use crate::cell::{Cell, Shown};
use crate::cells::{Scratch, cell_width, clean_width, exact_width};
use bean_base::power_of_ten;
use posting_table::Display;
use std::alloc::AllocError;

/// The greater of a width and a text's. A text takes no more columns than it has bytes.
#[inline(always)]
fn wider_by_text(width: usize, text: &str, clean: &mut String) -> Result<usize, AllocError>
    ensures { IfOk result (λ n. n ≡ max width (text_width (clean_text text.now))) }
{
    if text.len() <= width {
        return Ok(width);
    }
    Ok(width.max(clean_width(text, clean)?))
}

/// Whether a magnitude of eight decimals has two at most that are no zeros, and so few digits that it
/// takes no more columns with a sign and a point.
#[inline(always)]
fn is_short(number: u64, width: usize) -> bool
    requires { 5 ≤ width }
    ensures { IsTrue result → (number % 1000000 ≡ 0) × (number < 10 ^ (width + 4)) }
{
    number % 1_000_000 == 0 && number < power_of_ten(width.min(15) as u8 + 4) as u64
}

/// Whether a number is known to take no more columns, as most do.
#[inline(always)]
fn fits(count: i128, places: u8, width: usize) -> bool
    ensures { IsTrue result → length (number_text count places 0) ≤ width }
{
    if places != 8 || width < 5 {
        return false;
    }
    match u64::try_from(count.unsigned_abs()) {
        Ok(number) => is_short(number, width),
        Err(_) => false,
    }
}

/// The greater of a width and a number's.
#[inline(always)]
fn wider_by_number(width: usize, count: i128, places: u8) -> usize
    ensures { result ≡ max width (text_width (number_text count places 0)) }
{
    if fits(count, places, width) {
        return width;
    }
    width.max(exact_width(count, places))
}

/// The greater of a width and that of a cell.
#[inline(always)]
pub fn wider(
    width: usize,
    cell: &Cell<'_>,
    display: &Display<'_>,
    scratch: &mut Scratch,
) -> Result<usize, AllocError>
    ensures { IfOk result (λ n. n
        ≡ max width (text_width (cell_text (decimals_of display.now) cell.now))) }
{
    match cell.shown() {
        Shown::Text(text) => wider_by_text(width, text.text(), &mut scratch.clean),
        Shown::Number { places, count } => Ok(wider_by_number(width, *count, *places)),
        _ => Ok(width.max(cell_width(cell, display, scratch)?)),
    }
}
