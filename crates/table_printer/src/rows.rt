//! Rows of cells under the names of their columns, wherever they are kept.
ghost use Rattle.std.specs.Prelude.{◌≡◌, ◌<◌, ℕ, List, length, map, slice_get, take, Some};
ghost use Rattle.table_printer.specs.Table.{row_at, text_of};
ghost use Rattle.query_values.specs.declared.value.Value.{Value};

use cell_texts::Cell;

/// What a table is printed of: an answer, or what lends its cells from where they are. A row is
/// looked up once for all of its cells.
pub trait Rows {
    /// A row, as it is lent.
    type Row: Copy;

    /// The names of the columns.
    ghost names: { Self → List (List ℕ) };

    /// The rows.
    ghost rows: { Self → List (List Value) };

    /// The cells of a row.
    ghost values: { Self.Row → List Value };

    /// How many columns there are.
    fn columns(&self) -> usize
        ensures { result ≡ length (names self.now) };

    /// The name of a column.
    fn name(&self, column: usize) -> &str
        requires { column < length (names self.now) }
        ensures { Some result.now ≡ slice_get (names self.now) column };

    /// How many rows there are.
    fn len(&self) -> usize
        ensures { result ≡ length (rows self.now) };

    /// The row of that number, from 0.
    fn row(&self, number: usize) -> Self::Row
        requires { number < length (rows self.now) }
        ensures { values result ≡ row_at (rows self.now) number };

    /// How many cells at the front of a row mostly are those of the row before it: as many are
    /// written at once where they are. Any number is right.
    fn front(&self) -> usize;

    /// How many cells at the front of two rows show the same, as far as few steps tell it: 0 is always
    /// right.
    fn alike(first: &Self::Row, second: &Self::Row) -> usize
        ensures { (display : List ℕ → ℕ) → take result (map (text_of display) (values first.now))
            ≡ take result (map (text_of display) (values second.now)) };

    /// What a row has in a column.
    fn cell<'r>(row: &'r Self::Row, column: usize) -> Cell<'r>
        requires { column < length (values row.now) }
        ensures { Some result ≡ slice_get (values row.now) column };
}
