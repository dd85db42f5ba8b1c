//! What few transactions have.
ghost use Rattle.std.specs.Prelude.{◌≡◌, [], IfOk, IsTrue};
ghost use Rattle.posting_entries.specs.Extras.{no_extras};

use crate::metadata::Metadata;
use crate::plain_text::PlainText;
use crate::shared::Shared;
use bean_base::Apart;
use query_values::TextSet;
use std::alloc::{AllocError, Global};
use std::marker::Model;

/// A payee, which may be absent, and a narration.
pub(crate) struct Texts<'a> {
    pub payee: Option<PlainText<'a>>,
    pub narration: PlainText<'a>,
}

/// Written out, so that what gives one up needs to know nothing of what is in it.
impl Drop for Texts<'_> {
    fn drop(self) {
        let Texts {
            payee: _,
            narration: _,
        } = self;
    }
}

/// What few transactions have. Those that have none of it hold what stands once for all of them.
pub(crate) struct Extras<'a> {
    /// The texts, where they aren't kept as slices.
    pub texts: Option<Apart<Texts<'a>>>,
    pub tags: Shared<TextSet<'a>>,
    pub links: Shared<TextSet<'a>>,
    pub metadata: Metadata<'a>,
}

/// Written out, so that what gives one up needs to know nothing of what is in it.
impl Drop for Extras<'_> {
    fn drop(self) {
        let Extras {
            texts: _,
            tags: _,
            links: _,
            metadata: _,
        } = self;
    }
}

impl Extras<'_> {
    /// Whether there is nothing.
    fn are_none(&self) -> bool
        ensures { IsTrue result → self.now ≡ no_extras }
    {
        self.texts.is_none()
            && self.tags.get().as_slice().is_empty()
            && self.links.get().as_slice().is_empty()
            && self.metadata.as_slice().is_empty()
    }
}

/// What transactions without tags, links and metadata, and with texts as they are written, hold of
/// these. It stands once for all of them.
pub struct NoExtras<'a> {
    extras: Shared<Extras<'a>>,
}

/// Written out, so that what gives one up needs to know nothing of what is in it.
impl Drop for NoExtras<'_> {
    fn drop(self) {
        let NoExtras { extras: _ } = self;
    }
}

impl<'a> Model for NoExtras<'a> {
    ghost use Rattle.std.specs.Prelude.{◌≡◌};
    ghost use Rattle.posting_entries.specs.Extras.{no_extras};
    ghost use Rattle.posting_entries.specs.declared.extras.Extras.{Extras};

    ghost Value = { Extras };

    ghost view = { λ n. n.extras };

    ghost invariant = { λ n. n.extras ≡ no_extras };
}

impl<'a> NoExtras<'a> {
    /// Takes the memory that they stand in.
    pub fn new(alloc: Global) -> Result<NoExtras<'a>, AllocError> {
        let none = Shared::new(alloc, TextSet::empty(alloc))?;
        let extras = Extras {
            texts: None,
            tags: none.share()?,
            links: none,
            metadata: Metadata::empty(),
        };
        Ok(NoExtras {
            extras: Shared::new(alloc, extras)?,
        })
    }

    /// The set of no texts, once more.
    pub fn no_texts(&self) -> Result<Shared<TextSet<'a>>, AllocError>
        ensures { IfOk result (λ set. set ≡ []) }
    {
        self.extras.get().tags.share()
    }

    /// These, once more.
    pub(crate) fn extras(&self) -> Result<Shared<Extras<'a>>, AllocError>
        ensures { IfOk result (λ held. held ≡ no_extras) }
    {
        self.extras.share()
    }

    /// These, or where there are none, those that stand for all.
    pub(crate) fn or(
        &self,
        alloc: Global,
        extras: Extras<'a>,
    ) -> Result<Shared<Extras<'a>>, AllocError>
        ensures { IfOk result (λ held. held ≡ extras.entry) }
    {
        if extras.are_none() {
            return self.extras.share();
        }
        Shared::new(alloc, extras)
    }
}
