//! Showing a program.
ghost use Rattle.std.specs.Prelude.{◌≡◌, ◌++◌, ◌∷◌, ◌+◌, [], OnOk, IfOk, decimal};
ghost use Rattle.bean_base.specs.Character.{line_feed};
ghost use Rattle.query_code.specs.InstructionForm.{operand_in};
ghost use Rattle.query_code.specs.Listing.{name_of};
ghost use Rattle.query_code.specs.Listing as spec;
ghost use Rattle.query_code.specs.Listing.{labelled, with_operand};
ghost use Rattle.query_code.specs.Listing.{instruction_line, lines_from, section_lines};
ghost use Rattle.query_code.specs.Listing.{bounds_line, grouped_line, mode_line, listing};

use crate::instruction::{Instruction, Push, Unary};
use crate::program::{Code, Mode, Program};
use itoa::Buffer;
use limits::Bounds;
use query_values::Binary;
use std::alloc::{AllocError, Global};

fn name_of_push(push: Push) -> &'static str
    ensures { result.now ≡ spec.name_of_push push }
{
    match push {
        Push::True => "TRUE",
        Push::False => "FALSE",
        Push::Const(_) => "CONST",
        Push::LoadColumn(_) => "LOAD_COL",
        Push::LoadKey(_) => "LOAD_KEY",
        Push::LoadAggregate(_) => "LOAD_AGG",
        Push::Meta(_) => "META",
        Push::EntryMeta(_) => "ENTRY_META",
        Push::AnyMeta(_) => "ANY_META",
    }
}

fn name_of_unary(operation: Unary) -> &'static str
    ensures { result.now ≡ spec.name_of_unary operation }
{
    match operation {
        Unary::Align(_) => "ALIGN",
        Unary::Neg => "NEG",
        Unary::Abs => "ABS",
        Unary::Not => "NOT",
        Unary::IsNull => "IS_NULL",
        Unary::Match(_) => "MATCH",
        Unary::MatchAny(_) => "MATCH_ANY",
        Unary::InList(_) => "IN_LIST",
        Unary::Year => "YEAR",
        Unary::Month => "MONTH",
        Unary::Day => "DAY",
        Unary::Root(_) => "ROOT",
        Unary::Parent => "PARENT",
        Unary::Leaf => "LEAF",
        Unary::Length => "LENGTH",
        Unary::Units => "UNITS",
        Unary::Cost => "COST",
        Unary::Number => "NUMBER",
        Unary::Currency => "CURRENCY",
        Unary::RootRank => "ROOT_RANK",
    }
}

fn name_of_binary(operation: Binary) -> &'static str
    ensures { result.now ≡ spec.name_of_binary operation }
{
    match operation {
        Binary::Add => "ADD",
        Binary::Sub => "SUB",
        Binary::Mul => "MUL",
        Binary::Equal => "EQ",
        Binary::NotEqual => "NE",
        Binary::Less => "LT",
        Binary::AtMost => "LE",
        Binary::Greater => "GT",
        Binary::AtLeast => "GE",
        Binary::InSet => "IN_SET",
    }
}

impl Instruction {
    /// How the instruction is called.
    pub fn name(self) -> &'static str
        ensures { result.now ≡ name_of self }
    {
        match self {
            Instruction::Push(push) => name_of_push(push),
            Instruction::Unary(operation) => name_of_unary(operation),
            Instruction::Binary(operation) => name_of_binary(operation),
            Instruction::LoadSlot(_) => "LOAD_SLOT",
            Instruction::StoreSlot(_) => "STORE_SLOT",
            Instruction::Jump(_) => "JUMP",
            Instruction::JumpIfFalse(_) => "JUMP_IF_FALSE",
        }
    }

    /// Its operand, where it has one.
    pub fn operand(self) -> Option<u16>
        ensures { result ≡ operand_in self }
    {
        match self {
            Instruction::Push(Push::LoadColumn(x))
            | Instruction::LoadSlot(x)
            | Instruction::StoreSlot(x)
            | Instruction::Push(Push::LoadKey(x))
            | Instruction::Push(Push::LoadAggregate(x))
            | Instruction::Unary(Unary::Align(x))
            | Instruction::Unary(Unary::Root(x)) => Some(x as u16),
            Instruction::Push(Push::Const(x))
            | Instruction::Jump(x)
            | Instruction::JumpIfFalse(x)
            | Instruction::Unary(Unary::Match(x))
            | Instruction::Unary(Unary::MatchAny(x))
            | Instruction::Unary(Unary::InList(x))
            | Instruction::Push(Push::Meta(x))
            | Instruction::Push(Push::EntryMeta(x))
            | Instruction::Push(Push::AnyMeta(x)) => Some(x),
            _ => None,
        }
    }
}

fn push_text(out: &mut Vec<u8>, text: &str) -> Result<(), AllocError>
    ensures { OnOk result (out.new.items ≡ out.old.items ++ text.now) }
{
    out.extend_from_slice(text.as_bytes())
}

fn push_number(out: &mut Vec<u8>, number: u64) -> Result<(), AllocError>
    ensures { OnOk result (out.new.items ≡ out.old.items ++ decimal number) }
{
    let mut buffer = Buffer::new();
    push_text(out, buffer.format(number))
}

/// Words with a number behind them.
fn push_labelled(out: &mut Vec<u8>, words: &str, number: u64) -> Result<(), AllocError>
    ensures { OnOk result (out.new.items ≡ out.old.items ++ labelled words.now number) }
{
    push_text(out, words)?;
    push_text(out, " ")?;
    push_number(out, number)
}

fn end_line(out: &mut Vec<u8>) -> Result<(), AllocError>
    ensures { OnOk result (out.new.items ≡ out.old.items ++ line_feed ∷ []) }
{
    push_text(out, "\n")
}

fn push_operand(out: &mut Vec<u8>, operand: Option<u16>) -> Result<(), AllocError>
    ensures { OnOk result (out.new.items ≡ out.old.items ++ with_operand operand) }
{
    match operand {
        Some(operand) => push_labelled(out, "", operand as u64),
        None => Ok(()),
    }
}

fn push_instruction(
    out: &mut Vec<u8>,
    number: usize,
    instruction: Instruction,
) -> Result<(), AllocError>
    ensures { OnOk result (out.new.items ≡ out.old.items ++ instruction_line number instruction) }
{
    push_number(out, number as u64)?;
    push_text(out, " ")?;
    push_text(out, instruction.name())?;
    push_operand(out, instruction.operand())?;
    end_line(out)
}

fn push_instructions(out: &mut Vec<u8>, instructions: &[Instruction]) -> Result<(), AllocError>
    ensures { OnOk result (out.new.items ≡ out.old.items ++ lines_from 0 instructions.now) }
{
    let mut rest = instructions;
    while let [first, after @ ..] = rest {
        push_instruction(out, instructions.len() - rest.len(), *first)?;
        rest = after;
    }
    Ok(())
}

/// A section: its name, its length and its instructions.
fn push_section(
    out: &mut Vec<u8>,
    name: &str,
    instructions: &[Instruction],
) -> Result<(), AllocError>
    ensures { OnOk result
        (out.new.items ≡ out.old.items ++ section_lines name.now instructions.now) }
{
    push_labelled(out, name, instructions.len() as u64)?;
    end_line(out)?;
    push_instructions(out, instructions)
}

fn push_bounds(out: &mut Vec<u8>, bounds: Bounds) -> Result<(), AllocError>
    ensures { OnOk result (out.new.items ≡ out.old.items ++ bounds_line bounds) }
{
    push_labelled(out, "version", bounds.schema.number() as u64)?;
    push_labelled(out, " postings", bounds.postings as u64)?;
    push_labelled(out, " digits", bounds.units_digits as u64)?;
    push_labelled(out, " value-digits", bounds.value_digits as u64)?;
    end_line(out)
}

fn push_grouped(out: &mut Vec<u8>, keys: u8, aggregates: usize) -> Result<(), AllocError>
    ensures { OnOk result (out.new.items ≡ out.old.items ++ grouped_line keys aggregates) }
{
    push_labelled(out, "grouped keys", keys as u64)?;
    push_labelled(out, " aggregates", aggregates as u64)?;
    end_line(out)
}

fn push_mode(out: &mut Vec<u8>, mode: Mode, code: &Code<'_>) -> Result<(), AllocError>
    ensures { OnOk result (out.new.items ≡ out.old.items ++ mode_line mode code.now) }
{
    match mode {
        Mode::Plain => push_text(out, "plain\n"),
        Mode::Grouped => push_grouped(out, code.keys, code.aggregates.as_slice().len()),
    }
}

/// The text that shows a program: its bounds, its mode and its three sections, an instruction a
/// line.
pub fn show(alloc: Global, program: &Program<'_>) -> Result<Vec<u8>, AllocError>
    ensures { IfOk result (λ text. text.items ≡ listing program.now.parts) }
{
    let parts = &program.parts;
    let mut out = Vec::new(alloc);
    push_bounds(&mut out, parts.bounds)?;
    push_mode(&mut out, parts.mode, &parts.code)?;
    push_section(&mut out, "filter", parts.code.filter.as_slice())?;
    push_section(&mut out, "row", parts.code.row.as_slice())?;
    push_section(&mut out, "last", parts.code.last.as_slice())?;
    Ok(out)
}
