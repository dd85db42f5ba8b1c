//! The answer of a query, as rows of cells.
ghost use Rattle.std.specs.Prelude.{◌≡◌, ◌<◌, drop, length, slice_get, take, Some};

use crate::rows::Rows;
use bean_base::{List, Slice};
use cell_texts::Cell;
use query_answer::{Answer, AnswerRows};
use query_values::Value;

/// Rows of an answer, from one number up to another, under the names of their columns. They are lent
/// from where they lie.
#[derive(Clone, Copy)]
pub struct AnswerTable<'n, 'r, 'a> {
    pub names: &'n List<Slice<'a>>,
    pub rows: &'r AnswerRows<'a>,
    pub first: usize,
    pub end: usize,
}

impl<'t, 'a> AnswerTable<'t, 't, 'a> {
    /// All rows of an answer.
    pub fn of(answer: &'t Answer<'a>) -> AnswerTable<'t, 't, 'a>
        ensures names { result.names.now ≡ answer.now.headers }
        ensures rows { drop result.first (take result.end result.rows.now) ≡ answer.now.rows }
    {
        AnswerTable {
            names: &answer.headers,
            rows: &answer.rows,
            first: 0,
            end: answer.rows.len(),
        }
    }
}

/// A row of an answer.
#[derive(Clone, Copy)]
pub struct AnswerRow<'t, 'a> {
    pub values: &'t [Value<'a>],
}

/// What values have in a column.
fn cell_of<'r>(values: &'r [Value<'_>], column: usize) -> Cell<'r>
    requires { column < length values.now }
    ensures { Some result ≡ slice_get values.now column }
{
    Cell::kept(&values[column])
}

impl<'n, 'r, 'a> Rows for AnswerTable<'n, 'r, 'a> {
    type Row = AnswerRow<'r, 'a>;

    ghost use Rattle.std.specs.Prelude.{drop, take};

    ghost names = { λ table. table.names.now };

    ghost rows = { λ table. drop table.first (take table.end table.rows.now) };

    ghost values = { λ row. row.values.now };

    fn columns(&self) -> usize {
        self.names.as_slice().len()
    }

    fn name(&self, column: usize) -> &str {
        self.names.as_slice()[column].text()
    }

    fn len(&self) -> usize {
        self.end.min(self.rows.len()).saturating_sub(self.first)
    }

    fn row(&self, number: usize) -> AnswerRow<'r, 'a> {
        AnswerRow {
            values: self.rows.row(self.first + number),
        }
    }

    fn front(&self) -> usize {
        0
    }

    fn alike(_first: &AnswerRow<'r, 'a>, _second: &AnswerRow<'r, 'a>) -> usize {
        0
    }

    fn cell<'c>(row: &'c AnswerRow<'r, 'a>, column: usize) -> Cell<'c> {
        cell_of(row.values, column)
    }
}
