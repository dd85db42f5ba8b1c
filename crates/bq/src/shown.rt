//! What `list` shows of a ledger.
ghost use Rattle.std.specs.Prelude.{◌≡◌, ◌<◌, ℕ, IsTrue, List, length, map, slice_get, take, Some};
ghost use Rattle.bq.specs.Columns as spec;
ghost use Rattle.bq.specs.List.{shown_row};
ghost use Rattle.posting_entries.specs.Entry.{entry_spelling};
ghost use Rattle.table_printer.specs.Table.{text_of};
ghost use Rattle.query_values.specs.declared.value.Value.TheVariants as value;

use number_texts::are_one;
use posting_entries::EntryFlag;
use posting_table::{HeldRow, Ledger};
use query_terms::Column;
use table_printer::{Cell, Rows};

/// Date, flag, account and position of each posting, made from what the ledger lends.
#[derive(Clone, Copy)]
pub struct Postings<'l, 'a> {
    pub ledger: &'l Ledger<'a>,
}

/// The same of some postings.
#[derive(Clone, Copy)]
pub struct Part<'l, 'a> {
    pub rows: &'l [HeldRow<'a>],
}

/// A posting that is listed.
#[derive(Clone, Copy)]
pub struct Posting<'l, 'a> {
    pub row: &'l HeldRow<'a>,
}

/// The column of that number, from 0.
fn column_at(number: usize) -> Column
    ensures { result ≡ spec.column_at number }
{
    match number {
        0 => Column::Date,
        1 => Column::Flag,
        2 => Column::Account,
        _ => Column::Position,
    }
}

/// How a transaction is marked.
fn flag_cell<'r>(flag: EntryFlag) -> Cell<'r>
    ensures { result ≡ value.Text (entry_spelling flag) }
{
    let spelling: &'r str = flag.spelling();
    Cell::text(spelling)
}

/// The date of a posting.
fn date_of<'r>(row: &'r HeldRow<'_>) -> Cell<'r>
    ensures { Some result ≡ slice_get (shown_row row.now) 0 }
{
    Cell::day(row.date())
}

/// How the transaction of a posting is marked.
fn flag_of<'r>(row: &'r HeldRow<'_>) -> Cell<'r>
    ensures { Some result ≡ slice_get (shown_row row.now) 1 }
{
    flag_cell(row.flag())
}

/// The account of a posting.
fn account_of<'r>(row: &'r HeldRow<'_>) -> Cell<'r>
    ensures { Some result ≡ slice_get (shown_row row.now) 2 }
{
    Cell::text(row.account().text())
}

/// The position of a posting.
fn position_of<'r>(row: &'r HeldRow<'_>) -> Cell<'r>
    ensures { Some result ≡ slice_get (shown_row row.now) 3 }
{
    Cell::position(row.key(), row.count())
}

/// What a posting has in the column of that number, from 0.
#[inline(always)]
#[tactic(auto, using(crate::proofs::ShownFacts::in_the_last))]
fn cell_of<'r>(row: &'r HeldRow<'_>, column: usize) -> Cell<'r>
    requires { column < length (shown_row row.now) }
    ensures { Some result ≡ slice_get (shown_row row.now) column }
{
    match column {
        0 => date_of(row),
        1 => flag_of(row),
        2 => account_of(row),
        _ => position_of(row),
    }
}

/// Whether two postings have one date and one flag.
#[inline(always)]
fn are_marked_alike(first: &HeldRow<'_>, second: &HeldRow<'_>) -> bool
    ensures { IsTrue result → (display : List ℕ → ℕ) → take 2 (map (text_of display) (shown_row first.now))
        ≡ take 2 (map (text_of display) (shown_row second.now)) }
{
    are_one(first.date(), second.date()) && first.flag() == second.flag()
}

/// How many cells at the front of two postings show the same, as far as a look at their marks tells it.
#[inline(always)]
fn count_alike(first: &HeldRow<'_>, second: &HeldRow<'_>) -> usize
    ensures { (display : List ℕ → ℕ) → take result (map (text_of display) (shown_row first.now))
        ≡ take result (map (text_of display) (shown_row second.now)) }
{
    if are_marked_alike(first, second) {
        return 2;
    }
    0
}

impl<'l, 'a> Rows for Postings<'l, 'a> {
    ghost use Rattle.std.specs.Prelude.{map};
    ghost use Rattle.bq.specs.List.{headers, shown_row};

    type Row = Posting<'l, 'a>;

    ghost names = { λ _. headers };

    ghost rows = { λ postings. map shown_row postings.ledger.now.rows };

    ghost values = { λ posting. shown_row posting.row.now };

    fn columns(&self) -> usize {
        4
    }

    fn name(&self, column: usize) -> &str {
        column_at(column).name()
    }

    fn len(&self) -> usize {
        self.ledger.len()
    }

    #[tactic(auto, using(crate::proofs::ShownFacts::row_shown))]
    fn row(&self, number: usize) -> Posting<'l, 'a> {
        Posting {
            row: self.ledger.row(number),
        }
    }

    /// The day and the flag: rows of one transaction have the same.
    fn front(&self) -> usize {
        2
    }

    #[inline(always)]
    fn alike(first: &Posting<'l, 'a>, second: &Posting<'l, 'a>) -> usize {
        count_alike(first.row, second.row)
    }

    #[inline(always)]
    fn cell<'r>(posting: &'r Posting<'l, 'a>, column: usize) -> Cell<'r> {
        cell_of(posting.row, column)
    }
}

impl<'l, 'a> Rows for Part<'l, 'a> {
    ghost use Rattle.std.specs.Prelude.{map};
    ghost use Rattle.bq.specs.List.{headers, shown_row};

    type Row = Posting<'l, 'a>;

    ghost names = { λ _. headers };

    ghost rows = { λ part. map shown_row part.rows.now };

    ghost values = { λ posting. shown_row posting.row.now };

    fn columns(&self) -> usize {
        4
    }

    fn name(&self, column: usize) -> &str {
        column_at(column).name()
    }

    fn len(&self) -> usize {
        self.rows.len()
    }

    #[tactic(auto, using(crate::proofs::ShownFacts::row_shown))]
    fn row(&self, number: usize) -> Posting<'l, 'a> {
        Posting {
            row: &self.rows[number],
        }
    }

    /// The day and the flag: rows of one transaction have the same.
    fn front(&self) -> usize {
        2
    }

    #[inline(always)]
    fn alike(first: &Posting<'l, 'a>, second: &Posting<'l, 'a>) -> usize {
        count_alike(first.row, second.row)
    }

    #[inline(always)]
    fn cell<'r>(posting: &'r Posting<'l, 'a>, column: usize) -> Cell<'r> {
        cell_of(posting.row, column)
    }
}
