//! Reading the lists of a query file, and the sections and the pool that they make.
ghost use Rattle.std.specs.Prelude.{◌≡◌, List, length, Ok, IfOk};
ghost use Rattle.query_code.specs.declared.cause.FileCauseKind.TheVariants.{BadField};
ghost use Rattle.query_code.specs.ByteForm.{byte, counted, read_all};
ghost use Rattle.query_file.specs.FieldReading.{Gives};
ghost use Rattle.query_code.specs.InstructionForm.{word, instruction};
ghost use Rattle.query_code.specs.QueryFile.{count, day, numbers, constant, aggregate};
ghost use Rattle.query_code.specs.TextForm.{text, texts_in};
ghost use Rattle.query_code.specs.QueryFile.{section, some_number, place_below, columns, output};
ghost use Rattle.query_code.specs.QueryFile.{only, code};

use crate::fields::list_at;
use crate::reading::{
    byte_at, day_at, decimal_at, flag_at, limit_at, places_at, some_byte_at, some_number_at,
    stopped, text_at, word_at,
};
use bean_base::{Day, List, Slice};
use query_code::{
    Code, Constant, FileCauseKind, Instruction, Mode, Numbers, Output, Stop, TextList,
};
use query_values::Aggregate;
use refusals::Refusal;
use std::alloc::Global;

#[tactic(auto, unfolding(query_code::specs::QueryFile::aggregate))]
pub fn aggregate_at(bytes: &[u8]) -> Result<(Aggregate, &[u8]), Refusal<Stop>>
    ensures { Gives (λ x. (x.0, x.1.now)) result (aggregate.read bytes.now) }
{
    let (kind, rest) = byte_at(bytes)?;
    match kind {
        0 => Ok((Aggregate::CountRows, rest)),
        1 => Ok((Aggregate::Count, rest)),
        2 => {
            let (places, rest) = places_at(rest)?;
            Ok((Aggregate::Sum(places), rest))
        }
        3 => {
            let (places, rest) = places_at(rest)?;
            Ok((Aggregate::SumInventory(places), rest))
        }
        4 => Ok((Aggregate::First, rest)),
        5 => Ok((Aggregate::Last, rest)),
        6 => Ok((Aggregate::Min, rest)),
        7 => Ok((Aggregate::Max, rest)),
        _ => Err(stopped(FileCauseKind::BadField, bytes)),
    }
}

#[tactic(auto, unfolding(query_code::specs::QueryFile::numbers))]
fn numbers_at(alloc: Global, bytes: &[u8]) -> Result<(Numbers, &[u8]), Refusal<Stop>>
    ensures { Gives (λ x. (x.0, x.1.now)) result (numbers.read bytes.now) }
{
    let (places, rest) = places_at(bytes)?;
    let (count, rest) = some_number_at(rest)?;
    let (counts, rest) = list_at(alloc, count as usize, rest)?;
    Ok((Numbers { places, counts }, rest))
}

/// What stands behind so many texts.
#[tactic(auto, using(crate::proofs::PassingFacts::passing))]
fn behind_texts(len: usize, bytes: &[u8]) -> Result<&[u8], Refusal<Stop>>
    ensures { Gives (λ rest. (texts_in len bytes.now, rest.now)) result
        (read_all text len bytes.now) }
{
    let mut rest = bytes;
    for _ in 0..len {
        let (_, after) = text_at(rest)?;
        rest = after;
    }
    Ok(rest)
}

/// A list of texts, which takes no memory: the file has it as it is kept.
fn some_texts_at(alloc: Global, bytes: &[u8]) -> Result<(TextList<'_>, &[u8]), Refusal<Stop>>
    ensures { Gives (λ x. (x.0, x.1.now)) result ((counted some_number text).read bytes.now) }
{
    let (len, rest) = some_number_at(bytes)?;
    let after = behind_texts(len as usize, rest)?;
    let written = &rest[..rest.len() - after.len()];
    Ok((TextList::lent(alloc, len, written), after))
}

fn some_days_at(alloc: Global, bytes: &[u8]) -> Result<(List<Day>, &[u8]), Refusal<Stop>>
    ensures { Gives (λ x. (x.0, x.1.now)) result ((counted some_number day).read bytes.now) }
{
    let (count, rest) = some_number_at(bytes)?;
    list_at(alloc, count as usize, rest)
}

#[tactic(auto, unfolding(query_code::specs::QueryFile::constant))]
pub fn constant_at(alloc: Global, bytes: &[u8]) -> Result<(Constant<'_>, &[u8]), Refusal<Stop>>
    ensures { Gives (λ x. (x.0, x.1.now)) result (constant.read bytes.now) }
{
    let (kind, rest) = byte_at(bytes)?;
    match kind {
        1 => {
            let (text, rest) = text_at(rest)?;
            Ok((Constant::Text(text), rest))
        }
        2 => {
            let (number, rest) = decimal_at(rest)?;
            Ok((Constant::Number(number), rest))
        }
        3 => {
            let (day, rest) = day_at(rest)?;
            Ok((Constant::Day(day), rest))
        }
        4 => {
            let (pattern, rest) = text_at(rest)?;
            Ok((Constant::Pattern(pattern), rest))
        }
        5 => {
            let (texts, rest) = some_texts_at(alloc, rest)?;
            Ok((Constant::Texts(texts), rest))
        }
        6 => {
            let (numbers, rest) = numbers_at(alloc, rest)?;
            Ok((Constant::Numbers(numbers), rest))
        }
        7 => {
            let (days, rest) = some_days_at(alloc, rest)?;
            Ok((Constant::Days(days), rest))
        }
        _ => Err(stopped(FileCauseKind::BadField, bytes)),
    }
}

#[tactic(auto, unfolding(query_code::specs::QueryFile::place_below))]
fn place_below_at(most: usize, bytes: &[u8]) -> Result<(u8, &[u8]), Refusal<Stop>>
    ensures { Gives (λ x. (x.0, x.1.now)) result ((place_below most).read bytes.now) }
{
    let (place, rest) = byte_at(bytes)?;
    if place as usize >= most {
        return Err(stopped(FileCauseKind::BadField, bytes));
    }
    Ok((place, rest))
}

/// So many columns, each below the count of all.
pub fn order_at(
    alloc: Global,
    most: usize,
    len: usize,
    bytes: &[u8],
) -> Result<(Vec<u8>, &[u8]), Refusal<Stop>>
    ensures read { Gives (λ x. (x.0.items, x.1.now)) result
        (read_all (place_below most) len bytes.now) }
    ensures number { IfOk result (λ x. length x.0.items ≡ len) }
{
    let mut items = Vec::new(alloc);
    let mut rest = bytes;
    for _ in 0..len {
        let (item, after) = place_below_at(most, rest)?;
        items.push(item)?;
        rest = after;
    }
    Ok((items, rest))
}

/// The columns of an answer: the names of those that are shown, how many are hidden, and those to
/// order by.
#[derive(Drop)]
struct Columns<'a> {
    targets: List<Slice<'a>>,
    hidden: u8,
    order: List<u8>,
}

#[tactic(auto, unfolding(query_code::specs::QueryFile::columns))]
fn columns_at(alloc: Global, bytes: &[u8]) -> Result<(Columns<'_>, &[u8]), Refusal<Stop>>
    ensures { Gives (λ x. ((x.0.targets, (x.0.hidden, x.0.order)), x.1.now)) result
        (columns.read bytes.now) }
{
    let (count, rest) = some_byte_at(bytes)?;
    let (targets, rest) = list_at(alloc, count as usize, rest)?;
    let (hidden, rest) = byte_at(rest)?;
    let (items, rest) = byte_at(rest)?;
    let most = count as usize + hidden as usize;
    let (order, rest) = order_at(alloc, most, items as usize, rest)?;
    let columns = Columns {
        targets,
        hidden,
        order: List::new(order),
    };
    Ok((columns, rest))
}

#[tactic(auto, unfolding(query_code::specs::QueryFile::output))]
pub fn output_at(alloc: Global, bytes: &[u8]) -> Result<(Output<'_>, &[u8]), Refusal<Stop>>
    ensures { Gives (λ x. (x.0, x.1.now)) result (output.read bytes.now) }
{
    let (is_distinct, rest) = flag_at(bytes)?;
    let (is_descending, rest) = flag_at(rest)?;
    let (limit, rest) = limit_at(rest)?;
    let (columns, rest) = columns_at(alloc, rest)?;
    let output = Output {
        is_distinct,
        is_descending,
        limit,
        targets: columns.targets,
        hidden: columns.hidden,
        order: columns.order,
    };
    Ok((output, rest))
}

/// A count, which is 0 unless the program groups.
fn byte_if_grouped_at(mode: Mode, bytes: &[u8]) -> Result<(u8, &[u8]), Refusal<Stop>>
    ensures { Gives (λ x. (x.0, x.1.now)) result ((only mode byte).read bytes.now) }
{
    let (number, rest) = byte_at(bytes)?;
    if mode == Mode::Plain && number != 0 {
        return Err(stopped(FileCauseKind::BadField, bytes));
    }
    Ok((number, rest))
}

/// A count, which is 0 unless the program groups.
fn word_if_grouped_at(mode: Mode, bytes: &[u8]) -> Result<(u16, &[u8]), Refusal<Stop>>
    ensures { Gives (λ x. (x.0, x.1.now)) result ((only mode word).read bytes.now) }
{
    let (number, rest) = word_at(bytes)?;
    if mode == Mode::Plain && number != 0 {
        return Err(stopped(FileCauseKind::BadField, bytes));
    }
    Ok((number, rest))
}

#[tactic(auto, unfolding(query_code::specs::QueryFile::section))]
fn section_at(alloc: Global, bytes: &[u8]) -> Result<(List<Instruction>, &[u8]), Refusal<Stop>>
    ensures { Gives (λ x. (x.0, x.1.now)) result (section.read bytes.now) }
{
    let (count, rest) = word_at(bytes)?;
    list_at(alloc, count as usize, rest)
}

fn grouped_aggregates_at(
    alloc: Global,
    mode: Mode,
    bytes: &[u8],
) -> Result<(List<Aggregate>, &[u8]), Refusal<Stop>>
    ensures { Gives (λ x. (x.0, x.1.now)) result
        ((counted (only mode byte) aggregate).read bytes.now) }
{
    let (count, rest) = byte_if_grouped_at(mode, bytes)?;
    list_at(alloc, count as usize, rest)
}

fn pool_at(alloc: Global, bytes: &[u8]) -> Result<(List<Constant<'_>>, &[u8]), Refusal<Stop>>
    ensures { Gives (λ x. (x.0, x.1.now)) result ((counted word constant).read bytes.now) }
{
    let (count, rest) = word_at(bytes)?;
    list_at(alloc, count as usize, rest)
}

fn grouped_section_at(
    alloc: Global,
    mode: Mode,
    bytes: &[u8],
) -> Result<(List<Instruction>, &[u8]), Refusal<Stop>>
    ensures { Gives (λ x. (x.0, x.1.now)) result
        ((counted (only mode word) instruction).read bytes.now) }
{
    let (count, rest) = word_if_grouped_at(mode, bytes)?;
    list_at(alloc, count as usize, rest)
}

#[tactic(auto, unfolding(query_code::specs::QueryFile::code))]
pub fn code_at(alloc: Global, mode: Mode, bytes: &[u8]) -> Result<(Code<'_>, &[u8]), Refusal<Stop>>
    ensures { Gives (λ x. (x.0, x.1.now)) result ((code mode).read bytes.now) }
{
    let (keys, rest) = byte_if_grouped_at(mode, bytes)?;
    let (aggregates, rest) = grouped_aggregates_at(alloc, mode, rest)?;
    let (pool, rest) = pool_at(alloc, rest)?;
    let (filter, rest) = section_at(alloc, rest)?;
    let (row, rest) = section_at(alloc, rest)?;
    let (last, rest) = grouped_section_at(alloc, mode, rest)?;
    let code = Code {
        keys,
        aggregates,
        pool,
        filter,
        row,
        last,
    };
    Ok((code, rest))
}
