//! Postings in little memory.
ghost use Rattle.std.specs.Prelude.{◌≡◌, ◌<◌, ◌^◌, MatchOption, IfOk, IfSome, OnOk};
ghost use Rattle.std.specs.Int.RustNames.{unsigned_abs};
ghost use Rattle.bean_base.specs.Decimal.{IsLedger};
ghost use Rattle.bean_base.specs.declared.num.Num.{Num};
ghost use Rattle.bean_postings.specs.Details.{IsLineAlone};
ghost use Rattle.bean_postings.specs.Posting as rule;
ghost use Rattle.bean_postings.specs.WrittenPosting.{IsInRange, IsSmall};
ghost use Rattle.bean_postings.specs.WrittenPosting as spec;

use crate::cost::Cost;
use crate::details::DetailParts;
use crate::posting::{Posting, Units, are_outside_profile};
use crate::price::Price;
use bean_base::{Account, Amount, Apart, Currency, Flag, Num};
use bean_grammar::MetaEntry;
use bean_grammar::number::SmallNumber;
use std::alloc::{AllocError, Global};
use std::marker::Model;
use std::mem::replace;

/// What few postings have beside their accounts.
#[derive(Drop)]
struct Rest<'a> {
    units: Units<'a>,
    details: DetailParts<'a>,
}

/// What a posting is kept as beside its account.
#[derive(Drop)]
enum Kept<'a> {
    /// An amount whose count fits in 64 bits, on a line whose number fits in 32, and nothing else.
    Amount {
        places: u8,
        line: u32,
        count: i64,
        currency: Currency<'a>,
    },
    /// No amount, on such a line, and nothing else.
    Missing {
        line: u32,
    },
    Whole(Apart<Rest<'a>>),
}

/// A posting in 48 bytes: a ledger has many, and nearly all of them are an account, an amount or none,
/// and a line. What the others have lies apart. Contracts see the posting.
pub struct WrittenPosting<'a> {
    account: Account<'a>,
    kept: Kept<'a>,
    ghost in_range: { IsInRange kept },
    ghost small: { IsSmall kept },
}

/// Written out, so that what gives one up needs to know nothing of what is in it.
impl Drop for WrittenPosting<'_> {
    fn drop(self) {
        let WrittenPosting {
            account: _,
            kept: _,
        } = self;
    }
}

impl<'a> Model for WrittenPosting<'a> {
    ghost use Rattle.bean_postings.specs.WrittenPosting as spec;
    ghost use Rattle.bean_postings.specs.declared.posting.Posting.{Posting};

    ghost Value = { Posting };

    ghost view = { λ p. record {
      units = spec.units_in p.kept p.in_range p.small;
      account = p.account;
      details = spec.details_in p.kept;
    } };
}

/// The number of a count that is kept.
#[inline(always)]
fn number_of(count: i64, places: u8) -> Num
    requires in_range { IsLedger count places }
    requires small { unsigned_abs count < 10 ^ 20 }
    ensures count { result.count ≡ count }
    ensures places { result.places ≡ places }
{
    Num {
        count: i128::from(count),
        places,
    }
}

impl<'a> Rest<'a> {
    /// What is kept, by itself.
    fn of(kept: Kept<'a>) -> Rest<'a>
        requires in_range { IsInRange kept }
        requires small { IsSmall kept }
        ensures units { (in_range : IsInRange kept.entry) → (small : IsSmall kept.entry)
            → result.units ≡ spec.units_in kept.entry in_range small }
        ensures details { result.details ≡ spec.details_in kept.entry }
    {
        match kept {
            Kept::Amount {
                places,
                line,
                count,
                currency,
            } => Rest {
                units: Units::Amount(Amount {
                    number: number_of(count, places),
                    currency,
                }),
                details: DetailParts::alone(line as usize),
            },
            Kept::Missing { line } => Rest {
                units: Units::Missing,
                details: DetailParts::alone(line as usize),
            },
            Kept::Whole(rest) => rest.into_inner(),
        }
    }
}

impl<'a> WrittenPosting<'a> {
    /// A posting of an amount, with nothing else but its line; none where it isn't small enough to be
    /// kept without memory.
    #[inline(always)]
    pub(crate) fn of_amount(
        line: usize,
        account: Account<'a>,
        number: Num,
        currency: Currency<'a>,
    ) -> Option<WrittenPosting<'a>>
        ensures { IfSome result (λ p. p ≡ spec.of_amount line account.entry number currency.entry) }
    {
        let count = i64::try_from(number.count).ok()?;
        let line = u32::try_from(line).ok()?;
        Some(WrittenPosting {
            account,
            kept: Kept::Amount {
                places: number.places,
                line,
                count,
                currency,
            },
        })
    }

    /// The same of one whose number is small.
    #[inline(always)]
    pub(crate) fn of_small(
        line: usize,
        account: Account<'a>,
        number: SmallNumber,
        currency: Currency<'a>,
    ) -> Option<WrittenPosting<'a>>
        ensures { IfSome result (λ p. (whole : Num) × (whole.count ≡ number.count)
            × (whole.places ≡ number.places)
            × (p ≡ spec.of_amount line account.entry whole currency.entry)) }
    {
        let line = u32::try_from(line).ok()?;
        Some(WrittenPosting {
            account,
            kept: Kept::Amount {
                places: number.places as u8,
                line,
                count: number.count,
                currency,
            },
        })
    }

    /// The same of one without an amount.
    #[inline(always)]
    pub(crate) fn without_amount(line: usize, account: Account<'a>) -> Option<WrittenPosting<'a>>
        ensures { IfSome result (λ p. p ≡ spec.without_amount line account.entry) }
    {
        let line = u32::try_from(line).ok()?;
        Some(WrittenPosting {
            account,
            kept: Kept::Missing { line },
        })
    }

    /// A posting that may have anything, in memory of its own but for its account.
    pub(crate) fn whole(
        alloc: Global,
        posting: Posting<'a>,
    ) -> Result<WrittenPosting<'a>, AllocError>
        ensures { IfOk result (λ p. p ≡ posting.entry) }
    {
        let rest = Rest {
            units: posting.units,
            details: posting.details,
        };
        Ok(WrittenPosting {
            account: posting.account,
            kept: Kept::Whole(Apart::new(alloc, rest)?),
        })
    }

    /// What it adds to its account, as far as it is written.
    #[inline(always)]
    pub fn units(&self) -> Units<'a>
        ensures { result ≡ self.now.units }
    {
        match &self.kept {
            Kept::Amount {
                places,
                count,
                currency,
                ..
            } => Units::Amount(Amount {
                number: number_of(*count, *places),
                currency: currency.lend(),
            }),
            Kept::Missing { .. } => Units::Missing,
            Kept::Whole(rest) => rest.get().units.lend(),
        }
    }

    /// Its account.
    pub fn account(&self) -> &Account<'a>
        ensures { result.now ≡ self.now.account }
    {
        &self.account
    }

    /// Its details, where there may be others than the line.
    #[inline(always)]
    pub fn details(&self) -> Option<&DetailParts<'a>>
        ensures { MatchOption result (IsLineAlone self.now.details)
            (λ parts. parts.now ≡ self.now.details) }
    {
        match &self.kept {
            Kept::Amount { .. } | Kept::Missing { .. } => None,
            Kept::Whole(rest) => Some(&rest.get().details),
        }
    }

    /// The line on which it is written, from 1.
    pub fn line(&self) -> usize
        ensures { result ≡ self.now.details.line }
    {
        match &self.kept {
            Kept::Amount { line, .. } | Kept::Missing { line } => *line as usize,
            Kept::Whole(rest) => rest.get().details.line,
        }
    }

    /// The flag, if one is written.
    pub fn flag(&self) -> Option<Flag>
        ensures { result ≡ self.now.details.flag }
    {
        match self.details() {
            None => None,
            Some(parts) => parts.flag,
        }
    }

    /// The entries that stand under it.
    pub fn metadata(&self) -> &[MetaEntry<'a>]
        ensures { result.now ≡ self.now.details.metadata }
    {
        match &self.kept {
            Kept::Amount { .. } | Kept::Missing { .. } => &[],
            Kept::Whole(rest) => rest.get().details.metadata.as_slice(),
        }
    }

    /// Whether the books have no such posting: its units are a number without a currency, or have
    /// no number before a cost or a price, or its cost or its price is outside the profile.
    pub fn is_outside_profile(&self) -> bool
        ensures { result ≡ rule.is_outside_profile self.now }
    {
        match &self.kept {
            Kept::Amount { .. } | Kept::Missing { .. } => false,
            Kept::Whole(rest) => are_outside_profile(&rest.get().units, &rest.get().details),
        }
    }

    /// Adds an entry that stands under it.
    pub fn push(&mut self, alloc: Global, entry: MetaEntry<'a>) -> Result<(), AllocError>
        ensures { OnOk result (self.new ≡ spec.with_entry self.old entry.entry) }
    {
        let mut rest = Rest::of(replace(&mut self.kept, Kept::Missing { line: 0 }));
        rest.details.metadata.push(alloc, entry)?;
        self.kept = Kept::Whole(Apart::new(alloc, rest)?);
        Ok(())
    }
}
