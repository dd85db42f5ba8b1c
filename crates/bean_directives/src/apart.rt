//! Directives that lie in memory of their own.
ghost use Rattle.std.specs.Prelude.{◌≡◌, IfOk, OnOk};
ghost use Rattle.bean_directives.specs.Given.{with_given, with_postings, with_pushed};
ghost use Rattle.given_items.specs.Given.{given_at};

use crate::directive::{Directive, DirectiveKind};
use crate::stretch::Stretch;
use crate::undated::Pushed;
use bean_grammar::{Mark, MetaEntry};
use bean_postings::WrittenPosting;
use given_items::GivenItems;
use std::alloc::{AllocError, Global};
use std::marker::Model;

/// A directive in memory of its own, where it stays until it is booked. Contracts see the directive
/// itself.
pub struct ApartDirective<'a> {
    place: Box<Directive<'a>>,
}

/// Written out, so that what gives one up needs to know nothing of what is in it.
impl Drop for ApartDirective<'_> {
    fn drop(self) {
        let ApartDirective { place: _ } = self;
    }
}

impl<'a> Model for ApartDirective<'a> {
    ghost use Rattle.bean_directives.specs.declared.directive.Directive as declared;

    ghost Value = { declared.Directive };

    ghost view = { λ a. a.place.value };
}

impl<'a> ApartDirective<'a> {
    /// The directive in memory of its own.
    pub fn new(alloc: Global, directive: Directive<'a>) -> Result<ApartDirective<'a>, AllocError>
        ensures { IfOk result (λ a. a ≡ directive.entry) }
    {
        Ok(ApartDirective {
            place: Box::new(alloc, directive)?,
        })
    }

    /// The directive, out of its memory.
    pub fn into_inner(self) -> Directive<'a>
        ensures { result ≡ self.entry }
    {
        let ApartDirective { place } = self;
        Box::into_inner(place)
    }

    /// The directive.
    pub fn get(&self) -> &Directive<'a>
        ensures { result.now ≡ self.now }
    {
        &self.place
    }

    /// Gives a transaction its postings, where it lies.
    #[inline(always)]
    pub fn give_postings(&mut self, postings: Stretch<WrittenPosting<'a>>)
        ensures { self.new ≡ with_postings postings.entry self.old }
    {
        self.place.give_postings(postings);
    }

    /// Gives a transaction what is pushed, behind its own tags and entries.
    pub fn give(&mut self, alloc: Global, pushed: &Pushed<'a>) -> Result<(), AllocError>
        ensures { OnOk result (self.new ≡ with_pushed pushed.now self.old) }
    {
        if let DirectiveKind::Transaction(transaction) = &mut self.place.kind {
            match pushed {
                Pushed::Tag(tag) => transaction.marks.push(alloc, Mark::Tag(tag.lend()))?,
                Pushed::Entry(entry) => self.place.metadata.push(alloc, entry.lend())?,
            }
        }
        Ok(())
    }

    /// Gives a transaction those of a text's tags and entries that are given at its place, behind its
    /// own.
    pub fn give_shared(
        &mut self,
        alloc: Global,
        tags: &GivenItems<Mark<'a>>,
        entries: &GivenItems<MetaEntry<'a>>,
        place: usize,
    ) -> Result<(), AllocError>
        ensures { OnOk result (self.new
            ≡ with_given (given_at place tags.now) (given_at place entries.now) self.old) }
    {
        if let DirectiveKind::Transaction(transaction) = &mut self.place.kind {
            transaction.marks.give(alloc, tags, place)?;
            self.place.metadata.give(alloc, entries, place)?;
        }
        Ok(())
    }
}
