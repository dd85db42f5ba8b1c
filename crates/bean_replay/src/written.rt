//! Transactions as they are written, in the memory of their directives.
ghost use Rattle.std.specs.Prelude.{◌≡◌, ◌≢◌, IfErr, IfOk};
ghost use Rattle.bean_directives.specs.declared.directive.DirectiveKind.TheVariants as kinds;
ghost use Rattle.bean_directives.specs.declared.transaction.Transaction.{Transaction};
ghost use Rattle.bean_replay.specs.Stand.{written_in};
ghost use Rattle.bean_replay.specs.Written as spec;

use bean_base::{Day, Place};
use bean_directives::{ApartDirective, DirectiveKind, Transaction};
use bean_grammar::MetaEntry;
use bean_loaded::Placed;
use given_items::{Items, WithGiven};
use std::marker::Model;

/// What is known of a transaction that is written.
#[derive(Drop)]
pub struct WrittenParts<'a> {
    pub day: Day,
    pub place: Place,
    pub metadata: WithGiven<MetaEntry<'a>>,
    pub transaction: Transaction<'a>,
}

/// A transaction as it is written: a directive, which stays where it lies. Contracts see its parts.
pub struct Written<'a> {
    file: u32,
    directive: ApartDirective<'a>,
}

/// Written out, so that what gives one up needs to know nothing of what is in it.
impl Drop for Written<'_> {
    fn drop(self) {
        let Written {
            file: _,
            directive: _,
        } = self;
    }
}

impl<'a> Model for Written<'a> {
    ghost use Rattle.std.specs.Prelude.{◌≡◌, true};
    ghost use Rattle.bean_replay.specs.Written.{is_transaction, transaction_in};
    ghost use Rattle.bean_replay.specs.declared.written.WrittenParts.{WrittenParts};

    ghost Value = { WrittenParts };

    ghost view = { λ w. record {
      day = w.directive.day;
      place = record { file = w.file; line = w.directive.line };
      metadata = w.directive.metadata;
      transaction = transaction_in w.directive.kind;
    } };

    ghost invariant = { λ w. is_transaction w.directive.kind ≡ true };
}

/// Whether a directive is a transaction.
fn is_transaction(kind: &DirectiveKind<'_>) -> bool
    ensures { result ≡ spec.is_transaction kind.now }
{
    matches!(kind, DirectiveKind::Transaction(_))
}

impl<'a> Written<'a> {
    /// The transaction that a directive is, or else the directive.
    #[inline(always)]
    pub(crate) fn of(
        placed: Placed<ApartDirective<'a>>,
    ) -> Result<Written<'a>, Placed<ApartDirective<'a>>>
        ensures transaction { IfOk result (λ w. (t : Transaction)
            × (placed.entry.item.kind ≡ kinds.Transaction t) × (w ≡ written_in placed.entry t)) }
        ensures same { IfErr result (λ d. d ≡ placed.entry) }
        ensures other { IfErr result (λ d. (t : Transaction) → d.item.kind ≢ kinds.Transaction t) }
    {
        if !is_transaction(&placed.item.get().kind) {
            return Err(placed);
        }
        Ok(Written {
            file: placed.file,
            directive: placed.item,
        })
    }

    /// Its day.
    pub fn day(&self) -> Day
        ensures { result ≡ self.now.day }
    {
        self.directive.get().day
    }

    /// Where it is written.
    pub fn place(&self) -> Place
        ensures { result ≡ self.now.place }
    {
        Place {
            file: self.file as usize,
            line: self.directive.get().line as usize,
        }
    }

    /// Its metadata, one entry after the other.
    pub fn metadata(&self) -> Items<'_, MetaEntry<'a>>
        ensures { result ≡ self.now.metadata }
    {
        self.directive.get().metadata.items()
    }

    /// What is written.
    pub fn transaction(&self) -> &Transaction<'a>
        ensures { result.now ≡ self.now.transaction }
    {
        match &self.directive.get().kind {
            DirectiveKind::Transaction(transaction) => transaction,
            _ => unreachable!(),
        }
    }
}
