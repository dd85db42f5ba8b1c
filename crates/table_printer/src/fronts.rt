//! The fronts of lines. What a row has there in common with one before is copied.
ghost use Rattle.std.specs.Prelude.{◌≡◌, ◌≤◌, ◌++◌, IfSome, OnOk, drop, length, map, take};
ghost use Rattle.std.specs.List.{flat_map};
ghost use Rattle.posting_table.specs.Decimals.{decimals_of};
ghost use Rattle.table_printer.specs.Heading.{width_of};
ghost use Rattle.table_printer.specs.Layout.{before_gap};
ghost use Rattle.table_printer.specs.Line.{IsKept, front_text};

use crate::headings::Heading;
use crate::lines::{RowLine, push_cells};
use crate::rows::Rows;
use cell_texts::Scratch;
use posting_table::Display;
use std::alloc::AllocError;

/// So many bytes are copied at once.
const MOST: usize = 32;

/// The first cells of a row, as they were written last: each in its column and with the gap behind it.
#[derive(Clone, Copy)]
pub(crate) struct Front<R> {
    row: R,
    text: [u8; MOST],
    len: usize,
}

impl<R: Copy> Front<R> {
    /// The front of a row, which begins at `start`, where it is no more than is copied at once.
    fn new(row: R, out: &[u8], start: usize) -> Option<Front<R>>
        requires { start ≤ length out.now }
        ensures row { IfSome result (λ front. front.row ≡ row) }
        ensures few { IfSome result (λ front. front.len ≤ 32) }
        ensures text { IfSome result (λ front. take front.len front.text ≡ drop start out.now) }
    {
        let text = &out[start..];
        let len = text.len();
        if len > MOST {
            return None;
        }
        let mut bytes = [0; MOST];
        bytes[..len].copy_from_slice(text);
        Some(Front {
            row,
            text: bytes,
            len,
        })
    }

    /// Adds the text: so many bytes as are copied at once, and those that are too many are taken off.
    #[inline(always)]
    fn push(&self, out: &mut Vec<u8>) -> Result<(), AllocError>
        requires { self.now.len ≤ 32 }
        ensures { OnOk result (out.new.items ≡ out.old.items ++ take self.now.len self.now.text) }
    {
        // A copy of one's own lies nowhere in what is written.
        let text = self.text;
        out.extend_from_slice(&text)?;
        out.truncate(out.len() - (MOST - self.len));
        Ok(())
    }
}

/// The first cells of a row, and what is kept of them for the next. It stays out of what is done for
/// each row.
#[inline(never)]
fn push_new_front<T: Rows>(
    out: &mut Vec<u8>,
    scratch: &mut Scratch,
    row: &T::Row,
    display: &Display<'_>,
    headings: &[Heading<'_>],
    count: usize,
    kept: &mut Option<Front<T::Row>>,
) -> Result<(), AllocError>
    requires within { count ≤ length headings.now }
    requires many { length headings.now ≤ length (T.values row.now) }
    ensures text { OnOk result (out.new.items ≡ out.old.items
        ++ front_text (decimals_of display.now) (map width_of headings.now) count (T.values row.now)) }
    ensures kept { OnOk result (IsKept T.values (decimals_of display.now) (map width_of headings.now)
        count kept.new) }
{
    let start = out.len();
    let line: RowLine<'_, T> = RowLine { row };
    push_cells(out, scratch, &line, display, headings, 0, count)?;
    *kept = Front::new(*row, out, start);
    Ok(())
}

/// The first cells of a row, each in its column and with the gap behind it: copied where they are those
/// of the row that they were written of last.
#[inline(always)]
pub(crate) fn push_front<T: Rows>(
    out: &mut Vec<u8>,
    scratch: &mut Scratch,
    row: &T::Row,
    display: &Display<'_>,
    headings: &[Heading<'_>],
    count: usize,
    kept: &mut Option<Front<T::Row>>,
) -> Result<(), AllocError>
    requires within { count ≤ length headings.now }
    requires many { length headings.now ≤ length (T.values row.now) }
    requires kept { IsKept T.values (decimals_of display.now) (map width_of headings.now) count kept.old }
    ensures text { OnOk result (out.new.items ≡ out.old.items
        ++ front_text (decimals_of display.now) (map width_of headings.now) count (T.values row.now)) }
    ensures kept { OnOk result (IsKept T.values (decimals_of display.now) (map width_of headings.now)
        count kept.new) }
{
    if count == 0 {
        return Ok(());
    }
    if let Some(front) = kept {
        if T::alike(row, &front.row) >= count {
            return front.push(out);
        }
    }
    push_new_front::<T>(out, scratch, row, display, headings, count, kept)
}
