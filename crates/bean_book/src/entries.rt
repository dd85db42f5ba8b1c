//! What the postings of a booked transaction have in common.
ghost use Rattle.std.specs.Prelude.{◌≡◌, ◌++◌, ◌∷◌, [], IfOk, IfSome, OnOk, codes, map};
ghost use Rattle.std.specs.List.{flat_map};
ghost use Rattle.query_values.specs.TextSet.{set_of};
ghost use Rattle.bean_book.specs.Details.{accounts_told};
ghost use Rattle.bean_book.specs.Plain.{IsPlainEntry};
ghost use Rattle.bean_book.specs.Rows as spec;

use crate::details::Details;
use crate::metadata::metadata_of;
use bean_base::{Slice, Text};
use bean_directives::{Pad, Payee};
use bean_grammar::Mark;
use bean_holdings::Posted;
use bean_pad::NotedPad;
use bean_replay::{Kept, Written};
use given_items::Items;
use posting_entries::{
    Entry, EntryFlag, EntryParts, Metadata, NoExtras, PlainParts, PlainText, Shared,
};
use query_values::TextSet;
use std::alloc::{AllocError, Global};

/// A set of names. That of none stands once for all.
fn shared_set<'a>(
    alloc: Global,
    none: &NoExtras<'a>,
    names: Vec<Slice<'a>>,
) -> Result<Shared<TextSet<'a>>, AllocError>
    ensures { IfOk result (λ set. set ≡ set_of names.entry.items) }
{
    if names.is_empty() {
        return none.no_texts();
    }
    Shared::new(alloc, TextSet::new(names))
}

/// The names of the tags.
fn tags_of<'a>(
    alloc: Global,
    none: &NoExtras<'a>,
    marks: Items<'_, Mark<'a>>,
) -> Result<Shared<TextSet<'a>>, AllocError>
    ensures { IfOk result (λ set. set ≡ set_of (flat_map spec.tag_in marks.entry)) }
{
    let mut names = Vec::new(alloc);
    let mut rest = marks;
    while let Some(mark) = rest.next_item() {
        if let Mark::Tag(tag) = mark {
            names.push(Slice::new(tag.text()))?;
        }
    }
    shared_set(alloc, none, names)
}

/// The names of the links.
fn links_of<'a>(
    alloc: Global,
    none: &NoExtras<'a>,
    marks: Items<'_, Mark<'a>>,
) -> Result<Shared<TextSet<'a>>, AllocError>
    ensures { IfOk result (λ set. set ≡ set_of (flat_map spec.link_in marks.entry)) }
{
    let mut names = Vec::new(alloc);
    let mut rest = marks;
    while let Some(mark) = rest.next_item() {
        if let Mark::Link(link) = mark {
            names.push(Slice::new(link.text()))?;
        }
    }
    shared_set(alloc, none, names)
}

/// The accounts of booked postings, where they are told.
#[inline(always)]
fn accounts_of<'a>(
    alloc: Global,
    details: Details,
    posted: &[Posted<'a>],
) -> Result<TextSet<'a>, AllocError>
    ensures { IfOk result (λ set. set
        ≡ set_of (accounts_told details (map (λ p. p.account) posted.now))) }
{
    match details {
        Details::All => set_of_accounts(alloc, posted),
        Details::ButAccounts | Details::Few => Ok(TextSet::empty(alloc)),
    }
}

/// The set of the accounts of booked postings. Most transactions have two.
#[inline(never)]
fn set_of_accounts<'a>(alloc: Global, posted: &[Posted<'a>]) -> Result<TextSet<'a>, AllocError>
    ensures { IfOk result (λ set. set ≡ set_of (map (λ p. p.account) posted.now)) }
{
    if let [first, second] = posted {
        let first = Slice::new(first.account.text());
        return TextSet::of_two(alloc, first, Slice::new(second.account.text()));
    }
    accounts_among(alloc, posted)
}

/// The accounts of any number of booked postings.
fn accounts_among<'a>(alloc: Global, posted: &[Posted<'a>]) -> Result<TextSet<'a>, AllocError>
    ensures { IfOk result (λ set. set ≡ set_of (map (λ p. p.account) posted.now)) }
{
    let mut names = Vec::with_capacity(alloc, posted.len())?;
    for one in posted {
        names.push(Slice::new(one.account.text()))?;
    }
    Ok(TextSet::new(names))
}

/// What a payee stands for.
fn payee_of<'a>(alloc: Global, payee: &Payee<'a>) -> Result<Option<PlainText<'a>>, AllocError>
    ensures { IfOk result (λ text. text ≡ payee.now) }
{
    Ok(match payee.text() {
        Some(payee) => Some(PlainText::of(alloc, &payee)?),
        None => None,
    })
}

/// A text as it is written, where it has no escape.
fn slice_of<'a>(text: &Text<'a>) -> Option<Slice<'a>>
    ensures { IfSome result (λ slice. slice ≡ text.now) }
{
    Some(Slice::new(text.plain()?))
}

/// The texts of a transaction as they are written.
#[derive(Drop)]
struct Texts<'a> {
    payee: Option<Slice<'a>>,
    narration: Slice<'a>,
}

/// The texts of a transaction of which no marks and no metadata are told, where they are kept as they
/// are written.
fn plain_texts<'a>(details: Details, written: &Written<'a>) -> Option<Texts<'a>>
    ensures { IfSome result (λ texts.
        IsPlainEntry details written.now texts.payee texts.narration) }
{
    let transaction = written.transaction();
    let marks = details.items(transaction.marks.items());
    if !marks.is_empty() || !details.items(written.metadata()).is_empty() {
        return None;
    }
    let payee = match transaction.payee.text() {
        Some(payee) => Some(slice_of(&payee)?),
        None => None,
    };
    Some(Texts {
        payee,
        narration: slice_of(&transaction.narration)?,
    })
}

/// What the booked postings of a transaction have in common, as far as it is told.
pub(crate) fn entry_of<'a>(
    alloc: Global,
    none: &NoExtras<'a>,
    details: Details,
    kept: &Kept<'a>,
) -> Result<Shared<Entry<'a>>, AllocError>
    ensures { IfOk result (λ entry. entry ≡ spec.entry_of details kept.now) }
{
    let written = &kept.written;
    let Some(texts) = plain_texts(details, written) else {
        return full_entry(alloc, none, details, kept);
    };
    let parts = PlainParts {
        payee: texts.payee,
        narration: texts.narration,
        accounts: accounts_of(alloc, details, kept.postings.as_slice())?,
        date: written.day(),
        flag: EntryFlag::Written(written.transaction().flag),
    };
    Shared::new(alloc, Entry::plain(none, parts)?)
}

/// The same of a transaction that may have marks, metadata, and texts with escapes. It stays out of
/// what is done for each.
#[inline(never)]
fn full_entry<'a>(
    alloc: Global,
    none: &NoExtras<'a>,
    details: Details,
    kept: &Kept<'a>,
) -> Result<Shared<Entry<'a>>, AllocError>
    ensures { IfOk result (λ entry. entry ≡ spec.entry_of details kept.now) }
{
    let written = &kept.written;
    let transaction = written.transaction();
    let parts = EntryParts {
        payee: payee_of(alloc, &transaction.payee)?,
        narration: PlainText::of(alloc, &transaction.narration)?,
        tags: tags_of(alloc, none, details.items(transaction.marks.items()))?,
        links: links_of(alloc, none, details.items(transaction.marks.items()))?,
        accounts: accounts_of(alloc, details, kept.postings.as_slice())?,
        metadata: metadata_of(alloc, details.items(written.metadata()))?,
        date: written.day(),
        flag: EntryFlag::Written(transaction.flag),
    };
    Shared::new(alloc, Entry::new(alloc, none, parts)?)
}

/// The accounts of the two postings that a pad inserts, where they are told.
fn padding_accounts<'a>(
    alloc: Global,
    details: Details,
    pad: &Pad<'a>,
) -> Result<TextSet<'a>, AllocError>
    ensures { IfOk result (λ set. set
        ≡ set_of (accounts_told details (pad.now.account ∷ pad.now.source ∷ []))) }
{
    match details {
        Details::All => {
            let names = [
                Slice::new(pad.account.text()),
                Slice::new(pad.source.text()),
            ];
            Ok(TextSet::new(Vec::from_array(alloc, names)?))
        }
        Details::ButAccounts | Details::Few => Ok(TextSet::empty(alloc)),
    }
}

/// What the two postings have in common that a pad inserts.
pub(crate) fn padding_entry<'a>(
    alloc: Global,
    none: &NoExtras<'a>,
    details: Details,
    noted: &NotedPad<'a>,
) -> Result<Shared<Entry<'a>>, AllocError>
    ensures { IfOk result (λ entry. entry ≡ spec.padding_entry details noted.now) }
{
    let parts = EntryParts {
        payee: None,
        narration: PlainText::lent("Padding"),
        tags: none.no_texts()?,
        links: none.no_texts()?,
        accounts: padding_accounts(alloc, details, &noted.pad)?,
        metadata: Metadata::empty(),
        date: noted.day,
        flag: EntryFlag::Padding,
    };
    Shared::new(alloc, Entry::new(alloc, none, parts)?)
}
