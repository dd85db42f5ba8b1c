//! What the postings of a transaction have in common.
ghost use Rattle.std.specs.Prelude.{◌≡◌, IfOk, IfSome};
ghost use Rattle.std.specs.Option.{option_copied};
ghost use Rattle.posting_entries.specs.Entry.{entry_cell, entry_spelling, plain_parts};
ghost use Rattle.query_rows.specs.Row as rows;

use crate::extras::{Extras, NoExtras, Texts};
use crate::metadata::Metadata;
use crate::plain_text::PlainText;
use crate::shared::Shared;
use bean_base::{Apart, Day, Flag, Slice};
use query_terms::Column;
use query_values::{Lent, TextSet, Value, part};
use std::alloc::{AllocError, Global};
use std::marker::Model;

/// How a transaction is marked.
#[derive(Clone, Copy, Drop, PartialEq, Eq)]
pub enum EntryFlag {
    /// As it is written.
    Written(Flag),
    /// By `P`, as one that a pad inserts.
    Padding,
}

impl EntryFlag {
    /// How a table shows the flag.
    pub fn spelling(self) -> &'static str
        ensures { result.now ≡ entry_spelling self }
    {
        match self {
            EntryFlag::Written(flag) => flag.spelling(),
            EntryFlag::Padding => "P",
        }
    }
}

/// What the postings of a transaction have in common, part by part.
#[derive(Drop)]
pub struct EntryParts<'a> {
    pub payee: Option<PlainText<'a>>,
    pub narration: PlainText<'a>,
    pub tags: Shared<TextSet<'a>>,
    pub links: Shared<TextSet<'a>>,
    /// The accounts of all its postings.
    pub accounts: TextSet<'a>,
    pub metadata: Metadata<'a>,
    pub date: Day,
    pub flag: EntryFlag,
}

/// What the postings of a transaction have in common, of one that has no tags, no links and no
/// metadata, and whose texts are as they are written, as nearly all are.
#[derive(Drop)]
pub struct PlainParts<'a> {
    pub payee: Option<Slice<'a>>,
    pub narration: Slice<'a>,
    /// The accounts of all its postings.
    pub accounts: TextSet<'a>,
    pub date: Day,
    pub flag: EntryFlag,
}

/// What the postings of a transaction have in common, in little memory: texts are slices where both
/// are as they are written, and what few transactions have lies apart. Its value is its parts.
pub struct Entry<'a> {
    payee: Option<Slice<'a>>,
    narration: Slice<'a>,
    accounts: TextSet<'a>,
    extras: Shared<Extras<'a>>,
    date: Day,
    flag: EntryFlag,
}

/// Written out, so that what gives one up needs to know nothing of what is in it.
impl Drop for Entry<'_> {
    fn drop(self) {
        let Entry {
            payee: _,
            narration: _,
            accounts: _,
            extras: _,
            date: _,
            flag: _,
        } = self;
    }
}

impl<'a> Model for Entry<'a> {
    ghost use Rattle.posting_entries.specs.Extras.{narration_in, payee_in};
    ghost use Rattle.posting_entries.specs.declared.entry.EntryParts.{EntryParts};

    ghost Value = { EntryParts };

    ghost view = { λ e. record {
      payee = payee_in e.payee e.extras.texts;
      narration = narration_in e.narration e.extras.texts;
      tags = e.extras.tags;
      links = e.extras.links;
      accounts = e.accounts;
      metadata = e.extras.metadata;
      date = e.date;
      flag = e.flag;
    } };
}

/// A payee and a narration as they are written.
#[derive(Drop)]
struct Slices<'a> {
    payee: Option<Slice<'a>>,
    narration: Slice<'a>,
}

/// A payee and a narration as slices, where they are as they are written.
fn slices_of<'a>(payee: &Option<PlainText<'a>>, narration: &PlainText<'a>) -> Option<Slices<'a>>
    ensures { IfSome result (λ slices. (slices.payee ≡ payee.now)
        × (slices.narration ≡ narration.now)) }
{
    let payee = match payee {
        Some(payee) => Some(payee.slice()?),
        None => None,
    };
    Some(Slices {
        payee,
        narration: narration.slice()?,
    })
}

/// A text, or null where there is none.
fn text_or_null<'r>(text: Option<&'r str>) -> Value<'r>
    ensures { result ≡ rows.text_or_null (option_copied text.entry) }
{
    match text {
        Some(text) => Value::Text(Slice::new(text)),
        None => Value::Null,
    }
}

impl<'a> Entry<'a> {
    /// These parts. Few transactions take memory for it: most hold of what is rare what stands once
    /// for all that have none.
    pub fn new(
        alloc: Global,
        none: &NoExtras<'a>,
        parts: EntryParts<'a>,
    ) -> Result<Entry<'a>, AllocError>
        ensures { IfOk result (λ entry. entry ≡ parts.entry) }
    {
        let Some(slices) = slices_of(&parts.payee, &parts.narration) else {
            return Entry::with_texts(alloc, parts);
        };
        let extras = Extras {
            texts: None,
            tags: parts.tags,
            links: parts.links,
            metadata: parts.metadata,
        };
        Ok(Entry {
            payee: slices.payee,
            narration: slices.narration,
            accounts: parts.accounts,
            extras: none.or(alloc, extras)?,
            date: parts.date,
            flag: parts.flag,
        })
    }

    /// These parts. Takes no memory.
    pub fn plain(none: &NoExtras<'a>, parts: PlainParts<'a>) -> Result<Entry<'a>, AllocError>
        ensures { IfOk result (λ entry. entry ≡ plain_parts parts.entry) }
    {
        Ok(Entry {
            payee: parts.payee,
            narration: parts.narration,
            accounts: parts.accounts,
            extras: none.extras()?,
            date: parts.date,
            flag: parts.flag,
        })
    }

    /// These parts, whose texts lie apart.
    #[inline(never)]
    fn with_texts(alloc: Global, parts: EntryParts<'a>) -> Result<Entry<'a>, AllocError>
        ensures { IfOk result (λ entry. entry ≡ parts.entry) }
    {
        let texts = Texts {
            payee: parts.payee,
            narration: parts.narration,
        };
        let extras = Extras {
            texts: Some(Apart::new(alloc, texts)?),
            tags: parts.tags,
            links: parts.links,
            metadata: parts.metadata,
        };
        Ok(Entry {
            payee: None,
            narration: Slice::new(""),
            accounts: parts.accounts,
            extras: Shared::new(alloc, extras)?,
            date: parts.date,
            flag: parts.flag,
        })
    }

    /// The payee, if there is one.
    pub fn payee(&self) -> Option<&str>
        ensures { option_copied result ≡ self.now.payee }
    {
        if let Some(texts) = &self.extras.get().texts {
            return match &texts.get().payee {
                Some(payee) => Some(payee.as_str()),
                None => None,
            };
        }
        match &self.payee {
            Some(payee) => Some(payee.text()),
            None => None,
        }
    }

    /// The narration.
    pub fn narration(&self) -> &str
        ensures { result.now ≡ self.now.narration }
    {
        match &self.extras.get().texts {
            Some(texts) => texts.get().narration.as_str(),
            None => self.narration.text(),
        }
    }

    /// The names of its tags.
    pub fn tags(&self) -> &TextSet<'a>
        ensures { result.now ≡ self.now.tags }
    {
        self.extras.get().tags.get()
    }

    /// The names of its links.
    pub fn links(&self) -> &TextSet<'a>
        ensures { result.now ≡ self.now.links }
    {
        self.extras.get().links.get()
    }

    /// Its metadata.
    pub fn metadata(&self) -> &Metadata<'a>
        ensures { result.now ≡ self.now.metadata }
    {
        &self.extras.get().metadata
    }

    /// Its day.
    pub fn date(&self) -> Day
        ensures { result ≡ self.now.date }
    {
        self.date
    }

    /// How it is marked.
    pub fn flag(&self) -> EntryFlag
        ensures { result ≡ self.now.flag }
    {
        self.flag
    }

    /// What the transaction has in one of its columns; null in any other.
    pub fn cell(&self, column: Column) -> Value<'_>
        ensures { result ≡ entry_cell self.now column }
    {
        match column {
            Column::Date => Value::Day(self.date),
            Column::Year => part::year(&Value::Day(self.date)),
            Column::Month => part::month(&Value::Day(self.date)),
            Column::Day => part::day(&Value::Day(self.date)),
            Column::Flag => Value::Text(Slice::new(self.flag.spelling())),
            Column::Payee => text_or_null(self.payee()),
            Column::Narration => Value::Text(Slice::new(self.narration())),
            Column::Tags => Value::Set(Lent::new(self.tags())),
            Column::Links => Value::Set(Lent::new(self.links())),
            Column::Accounts => Value::Set(Lent::new(&self.accounts)),
            _ => Value::Null,
        }
    }
}
