//! Metadata: texts under keys.
ghost use Rattle.std.specs.Prelude.{◌≡◌, [], IfOk};
ghost use Rattle.std.specs.Option.{option_copied};
ghost use Rattle.posting_entries.specs.Metadata.{entries_of};
ghost use Rattle.query_rows.specs.Row as spec;

use crate::plain_text::PlainText;
use crate::shared::Shared;
use bean_base::{List, Slice};
use std::alloc::{AllocError, Global};
use std::marker::Model;

/// A text under a key, or nothing.
#[derive(Drop)]
pub struct MetaItem<'a> {
    pub key: Slice<'a>,
    pub text: Option<PlainText<'a>>,
}

/// The metadata of a posting or of a transaction, in order. It stands once for all that have it,
/// and none takes no memory. Its value is the list of its items.
pub struct Metadata<'a> {
    items: Option<Shared<List<MetaItem<'a>>>>,
}

/// Written out, so that what gives one up needs to know nothing of what is in it.
impl Drop for Metadata<'_> {
    fn drop(self) {
        let Metadata { items: _ } = self;
    }
}

impl<'a> Model for Metadata<'a> {
    ghost use Rattle.std.specs.Prelude.{[], unwrap_or};
    ghost use Rattle.std.specs.Prelude as prelude;
    ghost use Rattle.posting_entries.specs.declared.metadata.MetaItem.{MetaItem};

    ghost Value = { prelude.List MetaItem };

    ghost view = { λ m. unwrap_or m.items [] };
}

impl<'a> Metadata<'a> {
    /// No items. Takes no memory.
    pub fn empty() -> Metadata<'a>
        ensures { result ≡ [] }
    {
        Metadata { items: None }
    }

    /// The metadata of these items.
    pub fn new(alloc: Global, items: Vec<MetaItem<'a>>) -> Result<Metadata<'a>, AllocError>
        ensures { IfOk result (λ metadata. metadata ≡ items.entry.items) }
    {
        if items.is_empty() {
            return Ok(Metadata::empty());
        }
        Ok(Metadata {
            items: Some(Shared::new(alloc, List::new(items))?),
        })
    }

    /// The items.
    pub fn as_slice(&self) -> &[MetaItem<'a>]
        ensures { result.now ≡ self.now }
    {
        match &self.items {
            Some(items) => items.get().as_slice(),
            None => &[],
        }
    }

    /// The same metadata once more. Takes no memory.
    pub fn share(&self) -> Result<Metadata<'a>, AllocError>
        ensures { IfOk result (λ metadata. metadata ≡ self.now) }
    {
        Ok(Metadata {
            items: match &self.items {
                Some(items) => Some(items.share()?),
                None => None,
            },
        })
    }

    /// The text of the first item of a key: none where nothing stands behind it.
    pub fn text_under(&self, key: &str) -> Option<&str>
        ensures { option_copied result ≡ spec.text_under key.now (entries_of self.now) }
    {
        for item in self.as_slice() {
            if key == item.key.text() {
                return match &item.text {
                    Some(text) => Some(text.as_str()),
                    None => None,
                };
            }
        }
        None
    }
}
