//! A ledger's rows that are taken out part by part, so that each part can be given up by itself.
ghost use Rattle.std.specs.Prelude.{◌≡◌, ◌<◌, ◌++◌, [], IfOk, IfSome, IsNone, length};

use super::Ledger;
use crate::held::HeldRow;
use bean_base::List;
use pieces::{Parts, Pieces, forget_items};
use std::alloc::AllocError;
use std::marker::Model;
use std::mem::replace;

/// Rows that were taken out of a ledger, in their order and in parts.
#[derive(Drop)]
pub struct LedgerParts<'a> {
    rows: Parts<HeldRow<'a>>,
}

impl<'a> Model for LedgerParts<'a> {
    ghost use Rattle.std.specs.Prelude as prelude;
    ghost use Rattle.posting_table.specs.declared.row.Row.{Row};

    ghost Value = { prelude.List Row };

    ghost view = { λ p. p.rows };
}

/// Some of them, one behind the other.
#[derive(Drop)]
pub struct LedgerPart<'a> {
    rows: List<HeldRow<'a>>,
}

impl<'a> Model for LedgerPart<'a> {
    ghost use Rattle.std.specs.Prelude as prelude;
    ghost use Rattle.posting_table.specs.declared.row.Row.{Row};

    ghost Value = { prelude.List Row };

    ghost view = { λ p. p.rows };
}

impl<'a> Ledger<'a> {
    /// Takes all rows out, to be gone through part by part.
    pub fn take_parts(&mut self) -> Result<LedgerParts<'a>, AllocError>
        ensures taken { IfOk result (λ parts. parts ≡ self.old.rows) }
        ensures left { self.new ≡ record { rows = []; decimals = self.old.decimals } }
    {
        let rows = replace(&mut self.rows, Pieces::new(self.alloc));
        Ok(LedgerParts {
            rows: Parts::new(rows)?,
        })
    }
}

impl<'a> LedgerParts<'a> {
    /// The next part that has a row.
    pub fn next(&mut self) -> Option<LedgerPart<'a>>
        ensures some { IfSome result (λ part. self.old ≡ part ++ self.new) }
        ensures has { IfSome result (λ part. 0 < length part) }
        ensures none { IsNone result → (self.old ≡ []) × (self.new ≡ []) }
    {
        let rows = self.rows.next()?;
        Some(LedgerPart { rows })
    }
}

impl<'a> LedgerPart<'a> {
    /// Its rows.
    pub fn rows(&self) -> &[HeldRow<'a>]
        ensures { result.now ≡ self.now }
    {
        self.rows.as_slice()
    }

    /// Gives back the memory in which its rows lie, and forgets them without a look at what they share
    /// with others: for the end of a process, which gives up all of that at once.
    pub fn give_up(self) {
        let LedgerPart { rows } = self;
        forget_items(rows);
    }
}
