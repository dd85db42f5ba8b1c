//! The ledger: rows in order, and the display decimals.
ghost use Rattle.std.specs.Prelude.{◌≡◌, ◌≢◌, [], ◌∷◌, ◌++◌, ◌<◌, ◌≤◌, OnOk, OnErr, length};
ghost use Rattle.std.specs.Prelude.{All, IsTrue, Some, slice_get, true};
ghost use Rattle.std.specs.Option.{option_map};
ghost use Rattle.std.specs.FinMap as map;
ghost use Rattle.posting_table.specs.Plain as plain;
ghost use Rattle.posting_table.specs.Rows.{row_of, rows_of};
ghost use Rattle.posting_table.specs.Shaped.{IsShaped};
ghost use Rattle.query_rows.specs.ColumnShape.{widest};
ghost use Rattle.query_rows.specs.Fits as spec;
ghost use Rattle.query_rows.specs.Shaped as rows;

pub(crate) mod parts;
pub(crate) mod taken;

use crate::bounded::all_fit;
use crate::display::Display;
use crate::held::HeldRow;
use crate::keys::Keys;
use crate::row::{PlainRow, Row};
use bean_base::Currency;
use limits::{Bounds, MOST_POSTINGS};
use pieces::Pieces;
use query_terms::Column;
use query_values::Value;
use std::alloc::{AllocError, Global};
use std::marker::Model;

/// A list of booked postings, and how many decimals each currency shows.
pub struct Ledger<'a> {
    alloc: Global,
    rows: Pieces<HeldRow<'a>>,
    keys: Keys<'a>,
    display: Display<'a>,
}

/// Written out, so that crates which give one up need to know nothing of what is in it.
impl Drop for Ledger<'_> {
    fn drop(self) {
        let Ledger {
            alloc: _,
            rows: _,
            keys: _,
            display: _,
        } = self;
    }
}

impl<'a> Model for Ledger<'a> {
    ghost use Rattle.std.specs.Prelude.{◌≤◌, All, length};
    ghost use Rattle.std.specs.Coded.{codes};
    ghost use Rattle.posting_table.specs.Decimals.{decimals_code};
    ghost use Rattle.posting_table.specs.Ledger.{Ledger};
    ghost use Rattle.posting_table.specs.Shaped.{IsShaped};
    ghost use Rattle.query_rows.specs.ColumnShape.{widest};
    ghost use Rattle.limits.specs.declared.counts.TheConstants.{MOST_POSTINGS};

    ghost Value = { Ledger };

    ghost coded = { Prim.hlevel (codes, decimals_code) };

    ghost view = { λ l. record { rows = l.rows; decimals = l.display } };

    ghost invariant = { λ l.
        (length l.rows ≤ MOST_POSTINGS) × All (IsShaped widest) l.rows };
}

impl<'a> Ledger<'a> {
    /// No postings, and every currency at 0 decimals. Takes no memory.
    pub fn new(alloc: Global) -> Ledger<'a>
        ensures { result ≡ record { rows = []; decimals = map.empty } }
    {
        Ledger {
            alloc,
            rows: Pieces::new(alloc),
            keys: Keys::new(alloc),
            display: Display::new(alloc),
        }
    }

    /// Adds a posting at the end.
    pub fn push(&mut self, row: Row<'a>) -> Result<(), AllocError>
        requires room { length self.old.rows < MOST_POSTINGS }
        requires shaped { IsShaped widest row }
        ensures pushed { OnOk result (self.new
            ≡ record { rows = self.old.rows ++ row.entry ∷ []; decimals = self.old.decimals }) }
        ensures unchanged { OnErr result (self.new ≡ self.old) }
    {
        let row = HeldRow::new(self.alloc, &mut self.keys, row)?;
        self.rows.push(self.alloc, row)?;
        Ok(())
    }

    /// Adds a posting at the end that has nothing of its own but what it adds to its account.
    pub fn push_plain(&mut self, row: PlainRow<'a>) -> Result<(), AllocError>
        requires room { length self.old.rows < MOST_POSTINGS }
        requires shaped { IsShaped widest (plain.row_of row) }
        ensures pushed { OnOk result (self.new ≡ record {
          rows = self.old.rows ++ plain.row_of row.entry ∷ [];
          decimals = self.old.decimals;
        }) }
        ensures unchanged { OnErr result (self.new ≡ self.old) }
    {
        let row = HeldRow::plain(self.alloc, &mut self.keys, row)?;
        self.rows.push(self.alloc, row)?;
        Ok(())
    }

    /// Sets how many decimals a currency shows.
    pub fn set_display(&mut self, currency: Currency<'a>, places: u8) -> Result<(), AllocError>
        ensures set { OnOk result (self.new ≡ record {
          rows = self.old.rows;
          decimals = map.insert self.old.decimals currency.entry places;
        }) }
        ensures unchanged { OnErr result (self.new ≡ self.old) }
    {
        self.display.set(currency, places)
    }

    /// How many postings it holds.
    pub fn len(&self) -> usize
        ensures count { result ≡ length self.now.rows }
        ensures bound { result ≤ MOST_POSTINGS }
    {
        self.rows.len()
    }

    /// A posting, lent from the ledger: for callers that look at several of its cells.
    #[inline(always)]
    pub fn row(&self, row: usize) -> &HeldRow<'a>
        requires { row < length self.now.rows }
        ensures held { Some result.now ≡ slice_get self.now.rows row }
        ensures row { Some (row_of result.now) ≡ slice_get (rows_of self.now) row }
    {
        self.rows.at(row)
    }

    /// What a posting has in a column, lent from its row. No posting has a balance by itself.
    pub fn cell(&self, row: usize, column: Column) -> Value<'_>
        requires row { row < length self.now.rows }
        requires column { column ≢ Column.Balance }
        ensures { Some result
            ≡ option_map (λ r. r.cell column) (slice_get (rows_of self.now) row) }
    {
        self.rows.at(row).cell(column)
    }

    /// Whether it is within bounds: it has no more postings than they allow, and no wider counts.
    /// Its cells then lie in the shapes that its columns have by these bounds. Each ledger is
    /// within the widest bounds. Takes no memory.
    pub fn fits(&self, bounds: &Bounds) -> bool
        ensures fits { result ≡ spec.fits bounds.now (rows_of self.now) }
        ensures widest { spec.fits widest (rows_of self.now) ≡ true }
        ensures shaped { IsTrue result → All (rows.IsShaped bounds.now) (rows_of self.now) }
    {
        self.len() <= bounds.postings as usize && all_fit(bounds, &self.rows)
    }

    /// How many decimals each currency shows.
    pub fn display(&self) -> &Display<'a>
        ensures { result.now ≡ self.now.decimals }
    {
        &self.display
    }
}
