//! Metadata as texts.
ghost use Rattle.std.specs.Prelude.{◌≡◌, ◌++◌, ◌∷◌, [], codes, IfOk, OnOk, length, map};
ghost use Rattle.std.specs.String.{string_bytes};
ghost use Rattle.std.specs.Str.{IsAscii};
ghost use Rattle.number_texts.specs.Digits as digits;
ghost use Rattle.bean_book.specs.Metadata as spec;

use bean_base::{Amount, Day, Num, Slice};
use bean_grammar::{MetaEntry, Value};
use given_items::Items;
use number_texts::{push_day, push_number};
use posting_entries::{MetaItem, Metadata, PlainText};
use std::alloc::{AllocError, Global};

/// A text that was made byte by byte.
fn made<'a>(alloc: Global, bytes: Vec<u8>) -> Result<PlainText<'a>, AllocError>
    requires { IsAscii bytes.items }
    ensures { IfOk result (λ text. text ≡ bytes.items) }
{
    match String::from_utf8(bytes) {
        Ok(text) => PlainText::made(alloc, text),
        Err(_) => unreachable!(),
    }
}

/// A number with the decimals that it is written with.
fn push_num(out: &mut Vec<u8>, number: Num) -> Result<(), AllocError>
    ensures { OnOk result (out.new.items
        ≡ out.old.items ++ spec.num_text number) }
{
    push_number(out, number.count, number.places, number.places)
}

fn number_text<'a>(alloc: Global, number: Num) -> Result<PlainText<'a>, AllocError>
    ensures { IfOk result (λ text. text ≡ spec.num_text number) }
{
    let mut out = Vec::new(alloc);
    push_num(&mut out, number)?;
    made(alloc, out)
}

fn amount_text<'a>(alloc: Global, amount: &Amount<'a>) -> Result<PlainText<'a>, AllocError>
    ensures { IfOk result (λ text. text ≡ spec.amount_text amount.now) }
{
    let mut out = Vec::new(alloc);
    push_num(&mut out, amount.number)?;
    out.push(b' ')?;
    out.extend_from_slice(amount.currency.text().as_bytes())?;
    made(alloc, out)
}

fn day_text<'a>(alloc: Global, day: Day) -> Result<PlainText<'a>, AllocError>
    ensures { IfOk result (λ text. text ≡ digits.day_text day) }
{
    let mut out = Vec::new(alloc);
    push_day(&mut out, day)?;
    made(alloc, out)
}

/// A value as a text, where it is something.
fn text_of<'a>(alloc: Global, value: &Value<'a>) -> Result<Option<PlainText<'a>>, AllocError>
    ensures { IfOk result (λ text. text ≡ spec.text_of value.now) }
{
    Ok(Some(match value {
        Value::Nothing => return Ok(None),
        Value::Text(text) => PlainText::of(alloc, text)?,
        Value::Account(account) => PlainText::lent(account.text()),
        Value::Day(day) => day_text(alloc, *day)?,
        Value::Currency(currency) => PlainText::lent(currency.text()),
        Value::Tag(tag) => PlainText::lent(tag.text()),
        Value::Truth(true) => PlainText::lent("TRUE"),
        Value::Truth(false) => PlainText::lent("FALSE"),
        Value::Number(number) => number_text(alloc, *number)?,
        Value::Amount(amount) => amount_text(alloc, amount)?,
    }))
}

/// Entries as texts under their keys, where there are some. It stays out of what is done for each
/// transaction.
#[inline(never)]
fn made_of<'a>(alloc: Global, entries: Items<'_, MetaEntry<'a>>) -> Result<Metadata<'a>, AllocError>
    ensures { IfOk result (λ metadata. metadata ≡ spec.items_of entries.entry) }
{
    let mut items = Vec::with_capacity(alloc, entries.at_least())?;
    let mut rest = entries;
    while let Some(entry) = rest.next_item() {
        items.push(MetaItem {
            key: Slice::new(entry.key.text()),
            text: text_of(alloc, &entry.value)?,
        })?;
    }
    Metadata::new(alloc, items)
}

/// Entries as texts under their keys.
pub(crate) fn metadata_of<'a>(
    alloc: Global,
    entries: Items<'_, MetaEntry<'a>>,
) -> Result<Metadata<'a>, AllocError>
    ensures { IfOk result (λ metadata. metadata ≡ spec.items_of entries.entry) }
{
    if entries.is_empty() {
        return Ok(Metadata::empty());
    }
    made_of(alloc, entries)
}
