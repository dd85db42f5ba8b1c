//! What the instructions of a section may load.
ghost use Rattle.std.specs.Prelude.{◌≡◌, slice_get};
ghost use Rattle.query_rows.specs.ColumnShape.{AreBounds};
ghost use Rattle.well_shaped.specs.Laws.{is_some};
ghost use Rattle.well_shaped.specs.Sections as sections;
ghost use Rattle.verify_programs.specs.Loading as spec;

use bean_base::List;
use limits::Bounds;
use query_code::Mode;
use query_rows::{Shape, column_shape};
use query_terms::Column;
use std::alloc::Global;
use std::marker::Model;

/// What the instructions of a section may load: the columns and the metadata of a posting, the
/// running inventory, and the keys and the aggregates of a group.
#[derive(Drop)]
pub struct Loads {
    posting: Option<Bounds>,
    balance: Option<Shape>,
    keys: List<Shape>,
    aggregates: List<Shape>,
}

impl Model for Loads {
    ghost use Rattle.std.specs.Prelude.{IsTrue};
    ghost use Rattle.query_rows.specs.ColumnShape.{AreBounds};
    ghost use Rattle.well_shaped.specs.Sections as sections;
    ghost use Rattle.verify_programs.specs.Loading.{IfThere};

    ghost Value = { sections.Loads };

    ghost view = { λ l. record {
      posting = l.posting;
      balance = l.balance;
      keys = l.keys;
      aggregates = l.aggregates;
    } };

    ghost invariant = { λ l. IfThere AreBounds l.posting };
}

impl Loads {
    /// What the filter may load: of a posting all but the running inventory.
    pub fn of_filter(alloc: Global, bounds: Bounds) -> Loads
        requires { AreBounds bounds }
        ensures { result ≡ sections.filter_loads bounds }
    {
        Loads {
            posting: Some(bounds),
            balance: None,
            keys: List::new(Vec::new(alloc)),
            aggregates: List::new(Vec::new(alloc)),
        }
    }

    /// What the row section may load; the running inventory only where postings aren't grouped.
    pub fn of_row(alloc: Global, mode: Mode, bounds: Bounds) -> Loads
        requires { AreBounds bounds }
        ensures { result ≡ sections.row_loads mode bounds }
    {
        let balance = match mode {
            Mode::Plain => Some(column_shape(&bounds, Column::Balance)),
            Mode::Grouped => None,
        };
        Loads {
            posting: Some(bounds),
            balance,
            keys: List::new(Vec::new(alloc)),
            aggregates: List::new(Vec::new(alloc)),
        }
    }

    /// What the last section may load: the keys of a group and its aggregates.
    pub fn of_last(keys: List<Shape>, aggregates: List<Shape>) -> Loads
        ensures { result ≡ sections.last_loads keys aggregates }
    {
        Loads {
            posting: None,
            balance: None,
            keys,
            aggregates,
        }
    }

    /// Whether there is a posting, with its metadata.
    pub fn has_posting(&self) -> bool
        ensures { result ≡ is_some self.now.posting }
    {
        self.posting.is_some()
    }

    /// The shape of the column that has the number.
    pub fn column(&self, number: u8) -> Option<Shape>
        ensures { result ≡ sections.column_at self.now number }
    {
        match Column::numbered(number)? {
            Column::Balance => self.balance,
            column => self.of_posting(column),
        }
    }

    /// The shape of a column of the posting that is known beforehand.
    fn of_posting(&self, column: Column) -> Option<Shape>
        ensures { result ≡ spec.of_posting self.now column }
    {
        let bounds = self.posting?;
        if column.is_in(bounds.schema) {
            Some(column_shape(&bounds, column))
        } else {
            None
        }
    }

    /// The shape of a key, by its number.
    pub fn key(&self, number: u8) -> Option<Shape>
        ensures { result ≡ slice_get self.now.keys number }
    {
        self.keys.as_slice().get(number as usize).copied()
    }

    /// The shape of an aggregate, by its number.
    pub fn aggregate(&self, number: u8) -> Option<Shape>
        ensures { result ≡ slice_get self.now.aggregates number }
    {
        self.aggregates.as_slice().get(number as usize).copied()
    }
}
