//! Reading the fields of a query file, each from the front of what is left of it.
ghost use Rattle.std.specs.Prelude.{◌≡◌, List, length, Ok, true, false, MatchOption, IfOk};
ghost use Rattle.std.specs.Str.{is_utf8};
ghost use Rattle.query_code.specs.ByteForm.{byte, read_all, such_that};
ghost use Rattle.query_file.specs.FieldReading.{Gives};
ghost use Rattle.query_code.specs.InstructionForm.{word, at_least_one};
ghost use Rattle.query_code.specs.declared.cause.FileCauseKind.TheVariants.{Truncated, BadField};
ghost use Rattle.refusals.specs.declared.refusal.Refusal.TheVariants.{Refused};
ghost use Rattle.query_code.specs.QueryFile.{long, count, flag, limit, places, some_number};
ghost use Rattle.query_code.specs.QueryFile.{decimal, day};
ghost use Rattle.query_code.specs.TextForm.{text};

use bean_base::{Day, Slice};
use limits::MOST_PLACES;
use query_code::{FileCauseKind, Stop};
use query_terms::Decimal;
use refusals::Refusal;
use std::alloc::Global;

/// The cause at the first of these bytes.
pub fn stopped(cause: FileCauseKind, bytes: &[u8]) -> Refusal<Stop>
    ensures { result ≡ Refused (record { cause = cause; left = length bytes.now }) }
{
    Refusal::Refused(Stop {
        cause,
        left: bytes.len(),
    })
}

/// The bytes end within a field.
pub fn truncated() -> Refusal<Stop>
    ensures { result ≡ Refused (record { cause = Truncated; left = 0 }) }
{
    Refusal::Refused(Stop {
        cause: FileCauseKind::Truncated,
        left: 0,
    })
}

pub fn byte_at(bytes: &[u8]) -> Result<(u8, &[u8]), Refusal<Stop>>
    ensures { Gives (λ x. (x.0, x.1.now)) result (byte.read bytes.now) }
{
    match bytes {
        [] => Err(truncated()),
        [first, rest @ ..] => Ok((*first, rest)),
    }
}

pub fn word_at(bytes: &[u8]) -> Result<(u16, &[u8]), Refusal<Stop>>
    ensures { Gives (λ x. (x.0, x.1.now)) result (word.read bytes.now) }
{
    match bytes.split_first_chunk::<2>() {
        Some((front, rest)) => Ok((u16::from_be_bytes(*front), rest)),
        None => Err(truncated()),
    }
}

pub fn long_at(bytes: &[u8]) -> Result<(u32, &[u8]), Refusal<Stop>>
    ensures { Gives (λ x. (x.0, x.1.now)) result (long.read bytes.now) }
{
    match bytes.split_first_chunk::<4>() {
        Some((front, rest)) => Ok((u32::from_be_bytes(*front), rest)),
        None => Err(truncated()),
    }
}

#[tactic(auto, unfolding(query_code::specs::QueryFile::flag))]
pub fn flag_at(bytes: &[u8]) -> Result<(bool, &[u8]), Refusal<Stop>>
    ensures { Gives (λ x. (x.0, x.1.now)) result (flag.read bytes.now) }
{
    let (value, rest) = byte_at(bytes)?;
    match value {
        0 => Ok((false, rest)),
        1 => Ok((true, rest)),
        _ => Err(stopped(FileCauseKind::BadField, bytes)),
    }
}

#[tactic(auto, unfolding(query_code::specs::QueryFile::limit))]
pub fn limit_at(bytes: &[u8]) -> Result<(Option<u32>, &[u8]), Refusal<Stop>>
    ensures { Gives (λ x. (x.0, x.1.now)) result (limit.read bytes.now) }
{
    let (has, rest) = byte_at(bytes)?;
    match has {
        0 => Ok((None, rest)),
        1 => {
            let (most, rest) = long_at(rest)?;
            Ok((Some(most), rest))
        }
        _ => Err(stopped(FileCauseKind::BadField, bytes)),
    }
}

#[tactic(auto, using(crate::proofs::Utf8Facts::is_text, crate::proofs::Utf8Facts::is_no_text))]
fn as_text(bytes: &[u8]) -> Option<&str>
    ensures { MatchOption result (is_utf8 bytes.now ≡ false)
        (λ s. (s.now ≡ bytes.now) × (is_utf8 bytes.now ≡ true)) }
{
    match std::str::from_utf8(bytes) {
        Ok(text) => Some(text),
        Err(_) => None,
    }
}

/// A text behind its length in bytes.
#[tactic(auto, unfolding(query_code::specs::TextForm::text))]
pub fn text_at(bytes: &[u8]) -> Result<(Slice<'_>, &[u8]), Refusal<Stop>>
    ensures { Gives (λ x. (x.0, x.1.now)) result (text.read bytes.now) }
{
    let (len, rest) = word_at(bytes)?;
    let len = len as usize;
    if rest.len() < len {
        return Err(truncated());
    }
    let (front, after) = rest.split_at(len);
    match as_text(front) {
        Some(text) => Ok((Slice::new(text), after)),
        None => Err(stopped(FileCauseKind::NotUtf8, rest)),
    }
}

/// A count in 16 bytes, which isn't the least of these.
#[tactic(auto, unfolding(query_code::specs::QueryFile::count))]
pub fn count_at(bytes: &[u8]) -> Result<(i128, &[u8]), Refusal<Stop>>
    ensures { Gives (λ x. (x.0, x.1.now)) result (count.read bytes.now) }
{
    let Some((front, rest)) = bytes.split_first_chunk::<16>() else {
        return Err(truncated());
    };
    let count = i128::from_be_bytes(*front);
    if count == i128::MIN {
        return Err(stopped(FileCauseKind::BadField, bytes));
    }
    Ok((count, rest))
}

pub fn places_at(bytes: &[u8]) -> Result<(u8, &[u8]), Refusal<Stop>>
    ensures { Gives (λ x. (x.0, x.1.now)) result (places.read bytes.now) }
{
    let (places, rest) = byte_at(bytes)?;
    if places > MOST_PLACES {
        return Err(stopped(FileCauseKind::BadField, bytes));
    }
    Ok((places, rest))
}

/// A number of things, of which there has to be one.
pub fn some_number_at(bytes: &[u8]) -> Result<(u16, &[u8]), Refusal<Stop>>
    ensures { Gives (λ x. (x.0, x.1.now)) result (some_number.read bytes.now) }
{
    let (number, rest) = word_at(bytes)?;
    if number == 0 {
        return Err(stopped(FileCauseKind::BadField, bytes));
    }
    Ok((number, rest))
}

/// A number of one byte, which isn't 0.
pub fn some_byte_at(bytes: &[u8]) -> Result<(u8, &[u8]), Refusal<Stop>>
    ensures { Gives (λ x. (x.0, x.1.now)) result
        ((such_that BadField at_least_one byte).read bytes.now) }
{
    let (number, rest) = byte_at(bytes)?;
    if number == 0 {
        return Err(stopped(FileCauseKind::BadField, bytes));
    }
    Ok((number, rest))
}

#[tactic(auto, unfolding(query_code::specs::QueryFile::decimal))]
pub fn decimal_at(bytes: &[u8]) -> Result<(Decimal, &[u8]), Refusal<Stop>>
    ensures { Gives (λ x. (x.0, x.1.now)) result (decimal.read bytes.now) }
{
    let (places, rest) = places_at(bytes)?;
    let (count, rest) = count_at(rest)?;
    match Decimal::new(count, places) {
        Some(number) => Ok((number, rest)),
        None => Err(stopped(FileCauseKind::BadField, bytes)),
    }
}

/// A day of the calendar.
#[tactic(auto, unfolding(query_code::specs::QueryFile::day))]
pub fn day_at(bytes: &[u8]) -> Result<(Day, &[u8]), Refusal<Stop>>
    ensures { Gives (λ x. (x.0, x.1.now)) result (day.read bytes.now) }
{
    let (year, rest) = word_at(bytes)?;
    let (month, rest) = byte_at(rest)?;
    let (day, rest) = byte_at(rest)?;
    match Day::new(year, month, day) {
        Ok(day) => Ok((day, rest)),
        Err(_) => Err(stopped(FileCauseKind::BadField, bytes)),
    }
}
