//! What rows have of their own beside their accounts: little, in most of them.
ghost use Rattle.std.specs.Prelude.{◌≡◌, IfOk, IfSome};
ghost use Rattle.std.specs.Option.{option_copied};
ghost use Rattle.posting_entries.specs.Metadata.{entries_of};
ghost use Rattle.posting_table.specs.Beside as spec;
ghost use Rattle.query_rows.specs.Row as row_spec;

use crate::row::Weight;
use bean_base::{Amount, Apart, Flag};
use posting_entries::Metadata;
use std::alloc::{AllocError, Global};
use std::marker::Model;

/// The count and the line of a row, and a weight, a price, metadata and a flag, each of which may be
/// absent.
#[derive(Drop)]
pub(crate) struct BesideParts<'a> {
    /// How many units, as a count of `10^-8`.
    pub count: i128,
    /// What the posting weighs, where that isn't what its units weigh by themselves.
    pub weight: Option<Weight<'a>>,
    pub price: Option<Amount<'a>>,
    pub metadata: Metadata<'a>,
    pub line: usize,
    pub flag: Option<Flag>,
}

/// How it is kept.
#[derive(Drop)]
enum Kept<'a> {
    /// A line of 32 bits and a count of 64, where there is nothing else.
    Few { line: u32, count: i64 },
    Parts(Apart<BesideParts<'a>>),
}

/// What a row has beside its transaction, its account and the key of its position. What few rows have
/// lies in memory of its own, so that the others stay small: they take 16 bytes. Contracts see the
/// parts.
#[derive(Drop)]
pub(crate) struct Beside<'a> {
    kept: Kept<'a>,
}

impl<'a> Model for Beside<'a> {
    ghost use Rattle.posting_table.specs.Beside as spec;
    ghost use Rattle.posting_table.specs.declared.beside.BesideParts as declared;

    ghost Value = { declared.BesideParts };

    ghost view = { λ b. spec.parts_of b.kept };
}

impl<'a> Beside<'a> {
    /// These parts, in memory of their own.
    #[inline(never)]
    fn apart(alloc: Global, parts: BesideParts<'a>) -> Result<Beside<'a>, AllocError>
        ensures { IfOk result (λ b. b ≡ parts.entry) }
    {
        Ok(Beside {
            kept: Kept::Parts(Apart::new(alloc, parts)?),
        })
    }

    /// A count and a line with nothing else, where they are as small as nearly all are. Takes no
    /// memory.
    #[inline(always)]
    fn few(count: i128, line: usize) -> Option<Beside<'a>>
        ensures { IfSome result (λ b. b ≡ spec.count_and_line count line) }
    {
        let count = i64::try_from(count).ok()?;
        let line = u32::try_from(line).ok()?;
        Some(Beside {
            kept: Kept::Few { line, count },
        })
    }

    /// These parts. Where there is nothing but a count and a line, mostly no memory is taken.
    pub(crate) fn new(alloc: Global, parts: BesideParts<'a>) -> Result<Beside<'a>, AllocError>
        ensures { IfOk result (λ b. b ≡ parts.entry) }
    {
        let has_metadata = !parts.metadata.as_slice().is_empty();
        let has_amount = parts.weight.is_some() || parts.price.is_some();
        if has_metadata || has_amount || parts.flag.is_some() {
            return Beside::apart(alloc, parts);
        }
        match Beside::few(parts.count, parts.line) {
            Some(few) => Ok(few),
            None => Beside::apart(alloc, parts),
        }
    }

    /// A count and a line with nothing else.
    #[inline(always)]
    pub(crate) fn plain(alloc: Global, count: i128, line: usize) -> Result<Beside<'a>, AllocError>
        ensures { IfOk result (λ b. b ≡ spec.count_and_line count line) }
    {
        if let Some(few) = Beside::few(count, line) {
            return Ok(few);
        }
        let parts = BesideParts {
            count,
            weight: None,
            price: None,
            metadata: Metadata::empty(),
            line,
            flag: None,
        };
        Beside::apart(alloc, parts)
    }

    /// How many units, as a count of `10^-8`.
    #[inline(always)]
    pub(crate) fn count(&self) -> i128
        ensures { result ≡ self.now.count }
    {
        match &self.kept {
            Kept::Few { count, .. } => i128::from(*count),
            Kept::Parts(parts) => parts.get().count,
        }
    }

    /// What the posting weighs, where that isn't what its units weigh by themselves.
    pub(crate) fn weight(&self) -> Option<&Weight<'a>>
        ensures { option_copied result ≡ self.now.weight }
    {
        match &self.kept {
            Kept::Few { .. } => None,
            Kept::Parts(parts) => parts.get().weight.as_ref(),
        }
    }

    /// What a unit is priced at.
    pub(crate) fn price(&self) -> Option<&Amount<'a>>
        ensures { option_copied result ≡ self.now.price }
    {
        match &self.kept {
            Kept::Few { .. } => None,
            Kept::Parts(parts) => parts.get().price.as_ref(),
        }
    }

    /// The text of the first item of its metadata under a key: none where nothing stands behind it.
    pub(crate) fn text_under(&self, key: &str) -> Option<&str>
        ensures { option_copied result ≡ row_spec.text_under key.now (entries_of self.now.metadata) }
    {
        match &self.kept {
            Kept::Few { .. } => None,
            Kept::Parts(parts) => parts.get().metadata.text_under(key),
        }
    }

    /// The line of the written posting, or of the pad.
    pub(crate) fn line(&self) -> usize
        ensures { result ≡ self.now.line }
    {
        match &self.kept {
            Kept::Few { line, .. } => *line as usize,
            Kept::Parts(parts) => parts.get().line,
        }
    }

    /// The flag, if one is written.
    pub(crate) fn flag(&self) -> Option<Flag>
        ensures { result ≡ self.now.flag }
    {
        match &self.kept {
            Kept::Few { .. } => None,
            Kept::Parts(parts) => parts.get().flag,
        }
    }
}
