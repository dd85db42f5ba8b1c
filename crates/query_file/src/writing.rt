//! Writing the file of a program.
ghost use Rattle.std.specs.Prelude.{◌≡◌, ℕ, ◌++◌, OnOk, IfOk};
ghost use Rattle.query_code.specs.ByteForm.{byte, counted, all_written};
ghost use Rattle.query_code.specs.InstructionForm.{word, instruction};
ghost use Rattle.query_code.specs.QueryFile.{long, count, flag, limit, mode, decimal, day};
ghost use Rattle.query_code.specs.QueryFile.{numbers, constant, aggregate, section, place_below};
ghost use Rattle.query_code.specs.QueryFile.{columns, output, code, bounds, parts, file, only};
ghost use Rattle.query_code.specs.QueryFile.{version, IsFile};
ghost use Rattle.query_code.specs.TextForm.{text};

use crate::fields::put_list;
use bean_base::{Day, Slice};
use limits::{Bounds, Version};
use query_code::text_list::put_text;
use query_code::{Code, Constant, Instruction, Mode, Numbers, Output, Parts, Program, Push, Unary};
use query_terms::Decimal;
use query_values::{Aggregate, Binary};
use std::alloc::{AllocError, Global};

fn put_byte(out: &mut Vec<u8>, number: u8) -> Result<(), AllocError>
    ensures { OnOk result (out.new.items ≡ out.old.items ++ byte.written number) }
{
    out.push(number)?;
    Ok(())
}

fn put_word(out: &mut Vec<u8>, number: u16) -> Result<(), AllocError>
    ensures { OnOk result (out.new.items ≡ out.old.items ++ word.written number) }
{
    out.extend_from_slice(&number.to_be_bytes())
}

fn put_long(out: &mut Vec<u8>, number: u32) -> Result<(), AllocError>
    ensures { OnOk result (out.new.items ≡ out.old.items ++ long.written number) }
{
    out.extend_from_slice(&number.to_be_bytes())
}

#[tactic(auto, unfolding(query_code::specs::QueryFile::count))]
pub fn put_count(out: &mut Vec<u8>, number: i128) -> Result<(), AllocError>
    ensures { OnOk result (out.new.items ≡ out.old.items ++ count.written number) }
{
    let bytes = number.to_be_bytes();
    out.extend_from_slice(&bytes)
}

#[tactic(auto, unfolding(query_code::specs::QueryFile::flag))]
fn put_flag(out: &mut Vec<u8>, value: bool) -> Result<(), AllocError>
    ensures { OnOk result (out.new.items ≡ out.old.items ++ flag.written value) }
{
    put_byte(out, if value { 1 } else { 0 })
}

#[tactic(auto, unfolding(query_code::specs::QueryFile::limit))]
fn put_limit(out: &mut Vec<u8>, most: Option<u32>) -> Result<(), AllocError>
    ensures { OnOk result (out.new.items ≡ out.old.items ++ limit.written most) }
{
    match most {
        None => put_byte(out, 0),
        Some(number) => {
            put_byte(out, 1)?;
            put_long(out, number)
        }
    }
}

#[tactic(auto, unfolding(query_code::specs::QueryFile::mode))]
fn put_mode(out: &mut Vec<u8>, written: Mode) -> Result<(), AllocError>
    ensures { OnOk result (out.new.items ≡ out.old.items ++ mode.written written) }
{
    match written {
        Mode::Plain => put_byte(out, 0),
        Mode::Grouped => put_byte(out, 1),
    }
}

/// An opcode with a byte behind it.
fn put_with_byte(out: &mut Vec<u8>, opcode: u8, operand: u8) -> Result<(), AllocError>
    ensures { OnOk result
        (out.new.items ≡ out.old.items ++ (byte.written opcode ++ byte.written operand)) }
{
    put_byte(out, opcode)?;
    put_byte(out, operand)
}

/// An opcode with two bytes behind it.
fn put_with_word(out: &mut Vec<u8>, opcode: u8, operand: u16) -> Result<(), AllocError>
    ensures { OnOk result
        (out.new.items ≡ out.old.items ++ (byte.written opcode ++ word.written operand)) }
{
    put_byte(out, opcode)?;
    put_word(out, operand)
}

#[tactic(auto, unfolding(query_code::specs::InstructionForm::instruction, query_code::specs::InstructionForm::operand_cases, query_code::specs::InstructionForm::word_cases))]
fn put_push(out: &mut Vec<u8>, push: Push) -> Result<(), AllocError>
    ensures { OnOk result
        (out.new.items ≡ out.old.items ++ instruction.written (Instruction.Push push)) }
{
    match push {
        Push::True => put_byte(out, 0x00),
        Push::False => put_byte(out, 0x01),
        Push::Const(operand) => put_with_word(out, 0x02, operand),
        Push::LoadColumn(operand) => put_with_byte(out, 0x03, operand),
        Push::LoadKey(operand) => put_with_byte(out, 0x06, operand),
        Push::LoadAggregate(operand) => put_with_byte(out, 0x07, operand),
        Push::Meta(operand) => put_with_word(out, 0x5b, operand),
        Push::EntryMeta(operand) => put_with_word(out, 0x5c, operand),
        Push::AnyMeta(operand) => put_with_word(out, 0x5d, operand),
    }
}

#[tactic(auto, unfolding(query_code::specs::InstructionForm::instruction, query_code::specs::InstructionForm::operand_cases, query_code::specs::InstructionForm::word_cases))]
fn put_unary(out: &mut Vec<u8>, operation: Unary) -> Result<(), AllocError>
    ensures { OnOk result
        (out.new.items ≡ out.old.items ++ instruction.written (Instruction.Unary operation)) }
{
    match operation {
        Unary::Align(operand) => put_with_byte(out, 0x08, operand),
        Unary::Neg => put_byte(out, 0x13),
        Unary::Abs => put_byte(out, 0x14),
        Unary::Not => put_byte(out, 0x26),
        Unary::IsNull => put_byte(out, 0x27),
        Unary::Match(operand) => put_with_word(out, 0x40, operand),
        Unary::MatchAny(operand) => put_with_word(out, 0x41, operand),
        Unary::InList(operand) => put_with_word(out, 0x43, operand),
        Unary::Year => put_byte(out, 0x50),
        Unary::Month => put_byte(out, 0x51),
        Unary::Day => put_byte(out, 0x52),
        Unary::Root(operand) => put_with_byte(out, 0x53, operand),
        Unary::Parent => put_byte(out, 0x54),
        Unary::Leaf => put_byte(out, 0x55),
        Unary::Length => put_byte(out, 0x56),
        Unary::Units => put_byte(out, 0x57),
        Unary::Cost => put_byte(out, 0x58),
        Unary::Number => put_byte(out, 0x59),
        Unary::Currency => put_byte(out, 0x5a),
        Unary::RootRank => put_byte(out, 0x5e),
    }
}

#[tactic(auto, unfolding(query_code::specs::InstructionForm::instruction))]
fn put_binary(out: &mut Vec<u8>, operation: Binary) -> Result<(), AllocError>
    ensures { OnOk result
        (out.new.items ≡ out.old.items ++ instruction.written (Instruction.Binary operation)) }
{
    match operation {
        Binary::Add => put_byte(out, 0x10),
        Binary::Sub => put_byte(out, 0x11),
        Binary::Mul => put_byte(out, 0x12),
        Binary::Equal => put_byte(out, 0x20),
        Binary::NotEqual => put_byte(out, 0x21),
        Binary::Less => put_byte(out, 0x22),
        Binary::AtMost => put_byte(out, 0x23),
        Binary::Greater => put_byte(out, 0x24),
        Binary::AtLeast => put_byte(out, 0x25),
        Binary::InSet => put_byte(out, 0x42),
    }
}

#[tactic(auto, unfolding(query_code::specs::InstructionForm::instruction, query_code::specs::InstructionForm::operand_cases, query_code::specs::InstructionForm::word_cases))]
pub fn put_instruction(out: &mut Vec<u8>, step: Instruction) -> Result<(), AllocError>
    ensures { OnOk result (out.new.items ≡ out.old.items ++ instruction.written step) }
{
    match step {
        Instruction::Push(push) => put_push(out, push),
        Instruction::Unary(operation) => put_unary(out, operation),
        Instruction::Binary(operation) => put_binary(out, operation),
        Instruction::LoadSlot(operand) => put_with_byte(out, 0x04, operand),
        Instruction::StoreSlot(operand) => put_with_byte(out, 0x05, operand),
        Instruction::Jump(operand) => put_with_word(out, 0x30, operand),
        Instruction::JumpIfFalse(operand) => put_with_word(out, 0x31, operand),
    }
}

#[tactic(auto, unfolding(query_code::specs::QueryFile::decimal))]
fn put_decimal(out: &mut Vec<u8>, number: Decimal) -> Result<(), AllocError>
    ensures { OnOk result (out.new.items ≡ out.old.items ++ decimal.written number) }
{
    put_byte(out, number.places)?;
    put_count(out, number.count)
}

#[tactic(auto, unfolding(query_code::specs::QueryFile::day))]
pub fn put_day(out: &mut Vec<u8>, written: Day) -> Result<(), AllocError>
    ensures { OnOk result (out.new.items ≡ out.old.items ++ day.written written) }
{
    put_word(out, written.year() as u16)?;
    put_byte(out, written.month())?;
    put_byte(out, written.day())
}

#[tactic(auto, unfolding(query_code::specs::QueryFile::numbers))]
fn put_numbers(out: &mut Vec<u8>, written: &Numbers) -> Result<(), AllocError>
    requires { numbers.fits written.now }
    ensures { OnOk result (out.new.items ≡ out.old.items ++ numbers.written written.now) }
{
    let counts = written.counts.as_slice();
    put_byte(out, written.places)?;
    put_word(out, counts.len() as u16)?;
    put_list(out, counts)
}

#[tactic(auto, unfolding(query_code::specs::QueryFile::constant))]
pub fn put_constant(out: &mut Vec<u8>, entry: &Constant<'_>) -> Result<(), AllocError>
    requires { constant.fits entry.now }
    ensures { OnOk result (out.new.items ≡ out.old.items ++ constant.written entry.now) }
{
    match entry {
        Constant::Text(text) => {
            put_byte(out, 1)?;
            put_text(out, text.text())
        }
        Constant::Number(number) => {
            put_byte(out, 2)?;
            put_decimal(out, *number)
        }
        Constant::Day(day) => {
            put_byte(out, 3)?;
            put_day(out, *day)
        }
        Constant::Pattern(pattern) => {
            put_byte(out, 4)?;
            put_text(out, pattern.text())
        }
        Constant::Texts(texts) => {
            put_byte(out, 5)?;
            put_word(out, texts.len())?;
            texts.write(out)
        }
        Constant::Numbers(numbers) => {
            put_byte(out, 6)?;
            put_numbers(out, numbers)
        }
        Constant::Days(days) => {
            let days = days.as_slice();
            put_byte(out, 7)?;
            put_word(out, days.len() as u16)?;
            put_list(out, days)
        }
    }
}

#[tactic(auto, unfolding(query_code::specs::QueryFile::aggregate))]
pub fn put_aggregate(out: &mut Vec<u8>, written: Aggregate) -> Result<(), AllocError>
    ensures { OnOk result (out.new.items ≡ out.old.items ++ aggregate.written written) }
{
    match written {
        Aggregate::CountRows => put_byte(out, 0),
        Aggregate::Count => put_byte(out, 1),
        Aggregate::Sum(places) => {
            put_byte(out, 2)?;
            put_byte(out, places)
        }
        Aggregate::SumInventory(places) => {
            put_byte(out, 3)?;
            put_byte(out, places)
        }
        Aggregate::First => put_byte(out, 4),
        Aggregate::Last => put_byte(out, 5),
        Aggregate::Min => put_byte(out, 6),
        Aggregate::Max => put_byte(out, 7),
    }
}

#[tactic(auto, using(crate::proofs::WrittenFacts::order_written))]
fn put_order(out: &mut Vec<u8>, order: &[u8]) -> Result<(), AllocError>
    ensures { (most : ℕ)
        → OnOk result (out.new.items ≡ out.old.items ++ all_written (place_below most) order.now) }
{
    out.extend_from_slice(order)
}

#[tactic(auto, unfolding(query_code::specs::QueryFile::columns))]
fn put_columns(
    out: &mut Vec<u8>,
    targets: &[Slice<'_>],
    hidden: u8,
    order: &[u8],
) -> Result<(), AllocError>
    requires { columns.fits (targets.now, (hidden, order.now)) }
    ensures { OnOk result
        (out.new.items ≡ out.old.items ++ columns.written (targets.now, (hidden, order.now))) }
{
    put_byte(out, targets.len() as u8)?;
    put_list(out, targets)?;
    put_byte(out, hidden)?;
    put_byte(out, order.len() as u8)?;
    put_order(out, order)
}

#[tactic(auto, unfolding(query_code::specs::QueryFile::output))]
fn put_output(out: &mut Vec<u8>, written: &Output<'_>) -> Result<(), AllocError>
    requires { output.fits written.now }
    ensures { OnOk result (out.new.items ≡ out.old.items ++ output.written written.now) }
{
    put_flag(out, written.is_distinct)?;
    put_flag(out, written.is_descending)?;
    put_limit(out, written.limit)?;
    let targets = written.targets.as_slice();
    put_columns(out, targets, written.hidden, written.order.as_slice())
}

#[tactic(auto, unfolding(query_code::specs::QueryFile::section))]
fn put_section(out: &mut Vec<u8>, steps: &[Instruction]) -> Result<(), AllocError>
    requires { section.fits steps.now }
    ensures { OnOk result (out.new.items ≡ out.old.items ++ section.written steps.now) }
{
    put_word(out, steps.len() as u16)?;
    put_list(out, steps)
}

fn put_grouped_section(
    out: &mut Vec<u8>,
    mode: Mode,
    steps: &[Instruction],
) -> Result<(), AllocError>
    requires { (counted (only mode word) instruction).fits steps.now }
    ensures { OnOk result (out.new.items
        ≡ out.old.items ++ (counted (only mode word) instruction).written steps.now) }
{
    // The clauses alone speak of the mode: only grouped programs have these.
    let _ = mode;
    put_word(out, steps.len() as u16)?;
    put_list(out, steps)
}

fn put_grouped_aggregates(
    out: &mut Vec<u8>,
    mode: Mode,
    aggregates: &[Aggregate],
) -> Result<(), AllocError>
    requires { (counted (only mode byte) aggregate).fits aggregates.now }
    ensures { OnOk result (out.new.items
        ≡ out.old.items ++ (counted (only mode byte) aggregate).written aggregates.now) }
{
    // The clauses alone speak of the mode: only grouped programs have these.
    let _ = mode;
    put_byte(out, aggregates.len() as u8)?;
    put_list(out, aggregates)
}

fn put_pool(out: &mut Vec<u8>, pool: &[Constant<'_>]) -> Result<(), AllocError>
    requires { (counted word constant).fits pool.now }
    ensures { OnOk result
        (out.new.items ≡ out.old.items ++ (counted word constant).written pool.now) }
{
    put_word(out, pool.len() as u16)?;
    put_list(out, pool)
}

#[tactic(auto, unfolding(query_code::specs::QueryFile::code))]
fn put_code(out: &mut Vec<u8>, mode: Mode, written: &Code<'_>) -> Result<(), AllocError>
    requires { (code mode).fits written.now }
    ensures { OnOk result (out.new.items ≡ out.old.items ++ (code mode).written written.now) }
{
    put_byte(out, written.keys)?;
    put_grouped_aggregates(out, mode, written.aggregates.as_slice())?;
    put_pool(out, written.pool.as_slice())?;
    put_section(out, written.filter.as_slice())?;
    put_section(out, written.row.as_slice())?;
    put_grouped_section(out, mode, written.last.as_slice())
}

#[tactic(auto, unfolding(query_code::specs::QueryFile::bounds))]
fn put_bounds(out: &mut Vec<u8>, written: Bounds) -> Result<(), AllocError>
    ensures { OnOk result (out.new.items
        ≡ out.old.items ++ (bounds written.schema).written written) }
{
    put_long(out, written.postings)?;
    put_byte(out, written.units_digits)?;
    put_byte(out, written.value_digits)
}

#[tactic(auto, unfolding(query_code::specs::QueryFile::version))]
fn put_version(out: &mut Vec<u8>, written: Version) -> Result<(), AllocError>
    ensures { OnOk result (out.new.items ≡ out.old.items ++ version.written written) }
{
    put_word(out, written.number())
}

#[tactic(auto, unfolding(query_code::specs::QueryFile::parts, query_code::specs::QueryFile::versioned, query_code::specs::QueryFile::file))]
fn put_parts(out: &mut Vec<u8>, written: &Parts<'_>) -> Result<(), AllocError>
    requires { file.fits written.now }
    ensures { OnOk result (out.new.items ≡ out.old.items ++ file.written written.now) }
{
    out.extend_from_slice(b"BQLC")?;
    put_version(out, written.bounds.schema)?;
    put_bounds(out, written.bounds)?;
    put_mode(out, written.mode)?;
    put_output(out, &written.output)?;
    put_code(out, written.mode, &written.code)
}

/// The file of a program.
pub fn encode(alloc: Global, program: &Program<'_>) -> Result<Vec<u8>, AllocError>
    ensures { IfOk result (λ bytes. IsFile bytes.items program.now.parts) }
{
    let mut out = Vec::new(alloc);
    put_parts(&mut out, &program.parts)?;
    Ok(out)
}
