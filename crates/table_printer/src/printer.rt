//! A table that is printed part by part: its columns are measured once over all of its rows, then lines
//! are added for some rows after others, and its head is made at the end.
ghost use Rattle.std.specs.Prelude.{◌≡◌, ◌+◌, ◌++◌, ◌∷◌, [], ℕ, All, IfOk, List, OnOk, length, map};
ghost use Rattle.posting_table.specs.Decimals.{decimals_of};
ghost use Rattle.query_values.specs.declared.value.Value.{Value};
ghost use Rattle.table_printer.specs.Growing.{grown};
ghost use Rattle.table_printer.specs.Heading.{heading_text, width_of};
ghost use Rattle.table_printer.specs.Printing.{IsPrinted, MayLeaveOpen, columns_of, head_of};
ghost use Rattle.table_printer.specs.Table.{HasNoNumber, table_text};

use crate::growing::Growing;
use crate::headings::{Heading, heading_of, headings};
use crate::lines::{HeaderLine, push_line, push_rule};
use crate::open::{has_no_number, push_open_rows};
use crate::rows::Rows;
use crate::table::{push_rows, room_for};
use crate::text::TableText;
use cell_texts::Scratch;
use posting_table::Display;
use std::alloc::{AllocError, Global};

/// A table of which some rows are printed.
pub struct Printer<'t> {
    alloc: Global,
    /// The columns that were measured over all rows.
    headings: Vec<Heading<'t>>,
    /// A last column without numbers, as wide as the rows so far make it.
    own: Option<Heading<'t>>,
    scratch: Scratch,
    lines: Growing,
}

/// Written out, so that what gives one up needs to know nothing of what is in it.
impl Drop for Printer<'_> {
    fn drop(self) {
        let Printer {
            alloc: _,
            headings: _,
            own: _,
            scratch: _,
            lines: _,
        } = self;
    }
}

/// Where the text of a table is to stand.
#[derive(Clone, Copy)]
pub(crate) enum Room {
    /// In pieces of memory.
    Pieces,
    /// In one, for which room is taken at once.
    Whole,
}

/// No lines so far, with room for those of a table.
fn room_in(
    alloc: Global,
    room: Room,
    headings: &[Heading<'_>],
    rows: usize,
) -> Result<Growing, AllocError>
    ensures { IfOk result (λ lines. grown lines ≡ []) }
{
    match room {
        Room::Pieces => Growing::in_pieces(alloc),
        Room::Whole => Growing::whole(alloc, room_for(headings, rows)),
    }
}

/// Adds the head of a table: its header line and its rule.
fn push_head(
    out: &mut Vec<u8>,
    headings: &[Heading<'_>],
    scratch: &mut Scratch,
    display: &Display<'_>,
) -> Result<(), AllocError>
    ensures { OnOk result (out.new.items ≡ out.old.items
        ++ head_of (map width_of headings.now) (map heading_text headings.now)) }
{
    let header = HeaderLine { headings };
    push_line(out, scratch, &header, display, headings)?;
    push_rule(out, headings)?;
    Ok(())
}

/// The head of a table whose last column was left open.
fn open_head<'t>(
    alloc: Global,
    headings: Vec<Heading<'t>>,
    own: Heading<'t>,
    scratch: &mut Scratch,
    display: &Display<'_>,
) -> Result<Vec<u8>, AllocError>
    ensures { IfOk result (λ v. v.items ≡ head_of (map width_of (headings.entry.items ++ own.entry ∷ []))
        (map heading_text (headings.entry.items ++ own.entry ∷ []))) }
{
    let mut headings = headings;
    headings.push(own)?;
    let mut head = Vec::new(alloc);
    push_head(&mut head, &headings, scratch, display)?;
    Ok(head)
}

impl<'t> Printer<'t> {
    /// A table whose last column is left open, of which no rows are printed so far.
    fn left_open<N: Rows, T: Rows>(
        alloc: Global,
        room: Room,
        names: &'t N,
        table: &T,
        last: usize,
        scratch: Scratch,
        display: &Display<'_>,
    ) -> Result<Printer<'t>, AllocError>
        requires names { N.names names.now ≡ T.names table.now }
        requires even { All (λ row. length row ≡ length (T.names table.now)) (T.rows table.now) }
        requires last { last + 1 ≡ length (T.names table.now) }
        requires left { HasNoNumber last (T.rows table.now) }
        ensures printed { IfOk result (λ p. IsPrinted (T.names table.now) (T.rows table.now) []
            (decimals_of display.now) p) }
        ensures columns { IfOk result (λ p. columns_of p ≡ length (T.names table.now)) }
    {
        let mut scratch = scratch;
        let headings = headings(alloc, names, table, last, &mut scratch, display)?;
        let own = heading_of(&mut scratch, names, last, display)?;
        let lines = room_in(alloc, room, &headings, table.len())?;
        Ok(Printer {
            alloc,
            headings,
            own: Some(own),
            scratch,
            lines,
        })
    }

    /// A table whose columns are all measured, of which no rows are printed so far.
    fn measured<N: Rows, T: Rows>(
        alloc: Global,
        room: Room,
        names: &'t N,
        table: &T,
        scratch: Scratch,
        display: &Display<'_>,
    ) -> Result<Printer<'t>, AllocError>
        requires names { N.names names.now ≡ T.names table.now }
        requires even { All (λ row. length row ≡ length (T.names table.now)) (T.rows table.now) }
        ensures printed { IfOk result (λ p. IsPrinted (T.names table.now) (T.rows table.now) []
            (decimals_of display.now) p) }
        ensures columns { IfOk result (λ p. columns_of p ≡ length (T.names table.now)) }
    {
        let mut scratch = scratch;
        let headings = headings(alloc, names, table, table.columns(), &mut scratch, display)?;
        let mut lines = room_in(alloc, room, &headings, table.len())?;
        push_head(&mut lines.last, &headings, &mut scratch, display)?;
        Ok(Printer {
            alloc,
            headings,
            own: None,
            scratch,
            lines,
        })
    }

    /// A table of which no rows are printed so far, whose text is to stand there.
    pub(crate) fn begun<N: Rows, T: Rows>(
        alloc: Global,
        room: Room,
        names: &'t N,
        table: &T,
        display: &Display<'_>,
    ) -> Result<Printer<'t>, AllocError>
        requires names { N.names names.now ≡ T.names table.now }
        requires even { All (λ row. length row ≡ length (T.names table.now)) (T.rows table.now) }
        ensures printed { IfOk result (λ p. IsPrinted (T.names table.now) (T.rows table.now) []
            (decimals_of display.now) p) }
        ensures columns { IfOk result (λ p. columns_of p ≡ length (T.names table.now)) }
    {
        let scratch = Scratch::new(alloc);
        let columns = table.columns();
        if columns > 0 && has_no_number(table, columns - 1) {
            return Printer::left_open(alloc, room, names, table, columns - 1, scratch, display);
        }
        Printer::measured(alloc, room, names, table, scratch, display)
    }

    /// A table of which no rows are printed so far. It takes its names from `names`, and the widths of
    /// its columns from all of its rows, of which nothing is lent behind that.
    pub fn new<N: Rows, T: Rows>(
        alloc: Global,
        names: &'t N,
        table: &T,
        display: &Display<'_>,
    ) -> Result<Printer<'t>, AllocError>
        requires names { N.names names.now ≡ T.names table.now }
        requires even { All (λ row. length row ≡ length (T.names table.now)) (T.rows table.now) }
        ensures printed { IfOk result (λ p. IsPrinted (T.names table.now) (T.rows table.now) []
            (decimals_of display.now) p) }
        ensures columns { IfOk result (λ p. columns_of p ≡ length (T.names table.now)) }
    {
        Printer::begun(alloc, Room::Pieces, names, table, display)
    }

    /// Adds the lines of some rows: those behind the rows that are printed so far.
    pub fn push<T: Rows>(&mut self, part: &T, display: &Display<'_>) -> Result<(), AllocError>
        requires even { All (λ row. length row ≡ columns_of self.old) (T.rows part.now) }
        requires left { MayLeaveOpen self.old (T.rows part.now) }
        ensures printed { OnOk result ((names : List (List ℕ)) (all done : List (List Value))
            → IsPrinted names all done (decimals_of display.now) self.old
            → IsPrinted names all (done ++ T.rows part.now) (decimals_of display.now) self.new) }
        ensures columns { OnOk result (columns_of self.new ≡ columns_of self.old) }
    {
        if let Some(own) = &mut self.own {
            own.width = push_open_rows(
                self.alloc,
                &mut self.lines,
                part,
                &self.headings,
                own.width,
                &mut self.scratch,
                display,
            )?;
            return Ok(());
        }
        push_rows(
            self.alloc,
            &mut self.lines,
            part,
            &self.headings,
            &mut self.scratch,
            display,
        )
    }

    /// What is still to be put in front of the lines, and these.
    fn finish(self, display: &Display<'_>) -> Result<(Vec<u8>, Growing), AllocError>
        ensures { IfOk result (λ t. (names : List (List ℕ)) (all : List (List Value))
            → IsPrinted names all all (decimals_of display.now) self.entry
            → t.0.items ++ grown t.1 ≡ table_text names all (decimals_of display.now)) }
    {
        let Printer {
            alloc,
            headings,
            own,
            scratch,
            lines,
        } = self;
        let Some(own) = own else {
            return Ok((Vec::new(alloc), lines));
        };
        let mut scratch = scratch;
        let head = open_head(alloc, headings, own, &mut scratch, display)?;
        Ok((head, lines))
    }

    /// The text of the table, of which all rows are printed.
    pub fn into_text(self, display: &Display<'_>) -> Result<TableText, AllocError>
        ensures { IfOk result (λ text. (names : List (List ℕ)) (all : List (List Value))
            → IsPrinted names all all (decimals_of display.now) self.entry
            → text ≡ table_text names all (decimals_of display.now)) }
    {
        let (head, lines) = self.finish(display)?;
        let text = TableText::new(head, lines)?;
        Ok(text)
    }

    /// The same in one piece.
    pub(crate) fn into_bytes(self, display: &Display<'_>) -> Result<Vec<u8>, AllocError>
        ensures { IfOk result (λ text. (names : List (List ℕ)) (all : List (List Value))
            → IsPrinted names all all (decimals_of display.now) self.entry
            → text.items ≡ table_text names all (decimals_of display.now)) }
    {
        let alloc = self.alloc;
        let (head, lines) = self.finish(display)?;
        let mut text = lines.into_whole(alloc)?;
        if head.is_empty() {
            return Ok(text);
        }
        let rows = text.len();
        text.extend_from_slice(&head)?;
        text.rotate_left(rows);
        Ok(text)
    }
}
