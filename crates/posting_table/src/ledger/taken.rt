//! Rows that are taken out of a ledger and put back, so that others can stand between them.
ghost use Rattle.std.specs.Prelude.{◌≡◌, ◌≤◌, ◌+◌, ◌++◌, [], IfOk, OnOk, drop, length, take};
ghost use Rattle.limits.specs.declared.counts.TheConstants.{MOST_POSTINGS};

use super::Ledger;
use crate::held::HeldRow;
use pieces::{Pieces, Taken, move_items};
use std::alloc::AllocError;
use std::marker::Model;
use std::mem::replace;

/// Rows that were taken out of a ledger, in their order.
#[derive(Drop)]
pub struct TakenRows<'a> {
    rows: Taken<HeldRow<'a>>,
}

impl<'a> Model for TakenRows<'a> {
    ghost use Rattle.std.specs.Prelude as prelude;
    ghost use Rattle.std.specs.Prelude.{All};
    ghost use Rattle.posting_table.specs.Shaped.{IsShaped};
    ghost use Rattle.posting_table.specs.declared.row.Row.{Row};
    ghost use Rattle.query_rows.specs.ColumnShape.{widest};

    ghost Value = { prelude.List Row };

    ghost view = { λ t. t.rows };

    ghost invariant = { λ t. All (IsShaped widest) t.rows };
}

impl<'a> Ledger<'a> {
    /// Takes all rows out.
    pub fn take_rows(&mut self) -> Result<TakenRows<'a>, AllocError>
        ensures taken { IfOk result (λ taken. taken ≡ self.old.rows) }
        ensures left { self.new ≡ record { rows = []; decimals = self.old.decimals } }
    {
        let rows = replace(&mut self.rows, Pieces::new(self.alloc));
        Ok(TakenRows {
            rows: Taken::new(self.alloc, rows)?,
        })
    }

    /// Puts so many rows back at the end, or as many as there are.
    pub fn put_back(&mut self, rows: &mut TakenRows<'a>, count: usize) -> Result<(), AllocError>
        requires { length self.old.rows + length rows.old ≤ MOST_POSTINGS }
        ensures put { OnOk result (self.new ≡ record {
          rows = self.old.rows ++ take count rows.old;
          decimals = self.old.decimals;
        }) }
        ensures rest { OnOk result (rows.new ≡ drop count rows.old) }
    {
        move_items(self.alloc, &mut self.rows, &mut rows.rows, count)
    }
}
