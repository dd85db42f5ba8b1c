//! Directives, as the grammar has them. Names and texts are slices of the ledger's text.

use crate::accounts::{Close, Open, Pad};
use crate::notes::{Custom, Document, Event, Note, Query};
use crate::numbers::{Balance, Commodity, Price};
use crate::stretch::Stretch;
use crate::transaction::Transaction;
use bean_base::{Apart, Day};
use bean_grammar::MetaEntry;
use bean_postings::WrittenPosting;
use given_items::WithGiven;
use std::alloc::Global;

/// What a directive does. What few directives have, and is large, lies apart.
pub enum DirectiveKind<'a> {
    Open(Open<'a>),
    Close(Close<'a>),
    Commodity(Commodity<'a>),
    Transaction(Transaction<'a>),
    Balance(Apart<Balance<'a>>),
    Pad(Pad<'a>),
    Note(Note<'a>),
    Document(Document<'a>),
    Price(Apart<Price<'a>>),
    Event(Event<'a>),
    Query(Query<'a>),
    Custom(Custom<'a>),
}

/// Written out, so that what gives one up needs to know nothing of what is in it.
impl Drop for DirectiveKind<'_> {
    fn drop(self) {
        match self {
            DirectiveKind::Open(_) => {}
            DirectiveKind::Close(_) => {}
            DirectiveKind::Commodity(_) => {}
            DirectiveKind::Transaction(_) => {}
            DirectiveKind::Balance(_) => {}
            DirectiveKind::Pad(_) => {}
            DirectiveKind::Note(_) => {}
            DirectiveKind::Document(_) => {}
            DirectiveKind::Price(_) => {}
            DirectiveKind::Event(_) => {}
            DirectiveKind::Query(_) => {}
            DirectiveKind::Custom(_) => {}
        }
    }
}

impl<'a> DirectiveKind<'a> {
    ghost use Rattle.std.specs.Prelude.{◌≡◌, ◌≢◌, IfErr, IfOk};
    ghost use Rattle.bean_directives.specs.declared.transaction.Transaction.{Transaction};
    ghost use Rattle.bean_directives.specs.declared.directive.DirectiveKind.TheVariants as kinds;

    /// The transaction that a directive is, or else what it is.
    #[inline(always)]
    pub fn into_transaction(self) -> Result<Transaction<'a>, DirectiveKind<'a>>
        ensures transaction { IfOk result (λ t. self.entry ≡ kinds.Transaction t) }
        ensures same { IfErr result (λ kind. kind ≡ self.entry) }
        ensures other { IfErr result (λ kind. (t : Transaction)
            → kind ≢ kinds.Transaction t) }
    {
        match self {
            DirectiveKind::Transaction(transaction) => Ok(transaction),
            other => Err(other),
        }
    }
}

/// A block of a ledger's text that begins with a day.
#[derive(Drop)]
pub struct Directive<'a> {
    pub day: Day,
    /// The line on which it begins, from 1.
    pub line: u32,
    /// Its own entries in the order in which they are written, then those that are pushed to it, in the
    /// order of the bounds behind which they are given. The first entry of a key stands.
    pub metadata: WithGiven<MetaEntry<'a>>,
    pub kind: DirectiveKind<'a>,
}

impl<'a> Directive<'a> {
    ghost use Rattle.std.specs.Prelude.{◌≡◌, MatchOption};
    ghost use Rattle.bean_directives.specs.Given.{with_postings};

    /// Gives a transaction its postings, which stand in a block that is full by now.
    #[inline(always)]
    pub fn give_postings(&mut self, postings: Stretch<WrittenPosting<'a>>)
        ensures { self.new ≡ with_postings postings.entry self.old }
    {
        if let DirectiveKind::Transaction(transaction) = &mut self.kind {
            transaction.postings = postings;
        }
    }

    /// Takes the postings of a transaction out, if they lie by themselves.
    pub fn take_postings(&mut self, alloc: Global) -> Option<Vec<WrittenPosting<'a>>>
        ensures { MatchOption result (self.new ≡ self.old)
            (λ own. with_postings own.items self.new ≡ self.old) }
    {
        match &mut self.kind {
            DirectiveKind::Transaction(transaction) => transaction.postings.take_own(alloc),
            _ => None,
        }
    }
}
