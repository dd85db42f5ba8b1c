//! Reading the instructions of a query file.
ghost use Rattle.std.specs.Prelude.{◌≡◌, ◌∷◌};
ghost use Rattle.query_code.specs.ByteForm.{chosen};
ghost use Rattle.query_code.specs.InstructionForm.{instruction, operand_cases, word_cases};
ghost use Rattle.query_file.specs.FieldReading.{Gives};

use crate::reading::{byte_at, some_byte_at, stopped, word_at};
use query_code::{FileCauseKind, Instruction, Push, Stop, Unary};
use query_values::Binary;
use refusals::Refusal;

/// Those with two bytes behind their opcode, which stands before `rest`.
#[tactic(auto, unfolding(query_code::specs::InstructionForm::word_cases))]
fn with_word_at<'a>(
    opcode: u8,
    rest: &'a [u8],
    bytes: &'a [u8],
) -> Result<(Instruction, &'a [u8]), Refusal<Stop>>
    requires { bytes.now ≡ opcode ∷ rest.now }
    ensures { Gives (λ x. (x.0, x.1.now)) result ((chosen word_cases opcode).read rest.now) }
{
    match opcode {
        0x02 => {
            let (operand, rest) = word_at(rest)?;
            Ok((Instruction::Push(Push::Const(operand)), rest))
        }
        0x30 => {
            let (operand, rest) = word_at(rest)?;
            Ok((Instruction::Jump(operand), rest))
        }
        0x31 => {
            let (operand, rest) = word_at(rest)?;
            Ok((Instruction::JumpIfFalse(operand), rest))
        }
        0x40 => {
            let (operand, rest) = word_at(rest)?;
            Ok((Instruction::Unary(Unary::Match(operand)), rest))
        }
        0x41 => {
            let (operand, rest) = word_at(rest)?;
            Ok((Instruction::Unary(Unary::MatchAny(operand)), rest))
        }
        0x43 => {
            let (operand, rest) = word_at(rest)?;
            Ok((Instruction::Unary(Unary::InList(operand)), rest))
        }
        0x5b => {
            let (operand, rest) = word_at(rest)?;
            Ok((Instruction::Push(Push::Meta(operand)), rest))
        }
        0x5c => {
            let (operand, rest) = word_at(rest)?;
            Ok((Instruction::Push(Push::EntryMeta(operand)), rest))
        }
        0x5d => {
            let (operand, rest) = word_at(rest)?;
            Ok((Instruction::Push(Push::AnyMeta(operand)), rest))
        }
        _ => Err(stopped(FileCauseKind::BadField, bytes)),
    }
}

/// Those with an operand behind their opcode, which stands before `rest`.
#[tactic(auto, unfolding(query_code::specs::InstructionForm::operand_cases))]
fn with_operand_at<'a>(
    opcode: u8,
    rest: &'a [u8],
    bytes: &'a [u8],
) -> Result<(Instruction, &'a [u8]), Refusal<Stop>>
    requires { bytes.now ≡ opcode ∷ rest.now }
    ensures { Gives (λ x. (x.0, x.1.now)) result ((chosen operand_cases opcode).read rest.now) }
{
    match opcode {
        0x03 => {
            let (operand, rest) = byte_at(rest)?;
            Ok((Instruction::Push(Push::LoadColumn(operand)), rest))
        }
        0x04 => {
            let (operand, rest) = byte_at(rest)?;
            Ok((Instruction::LoadSlot(operand), rest))
        }
        0x05 => {
            let (operand, rest) = byte_at(rest)?;
            Ok((Instruction::StoreSlot(operand), rest))
        }
        0x06 => {
            let (operand, rest) = byte_at(rest)?;
            Ok((Instruction::Push(Push::LoadKey(operand)), rest))
        }
        0x07 => {
            let (operand, rest) = byte_at(rest)?;
            Ok((Instruction::Push(Push::LoadAggregate(operand)), rest))
        }
        0x08 => {
            let (operand, rest) = byte_at(rest)?;
            Ok((Instruction::Unary(Unary::Align(operand)), rest))
        }
        0x53 => {
            let (operand, rest) = some_byte_at(rest)?;
            Ok((Instruction::Unary(Unary::Root(operand)), rest))
        }
        _ => with_word_at(opcode, rest, bytes),
    }
}

#[tactic(auto, unfolding(query_code::specs::InstructionForm::instruction))]
pub fn instruction_at(bytes: &[u8]) -> Result<(Instruction, &[u8]), Refusal<Stop>>
    ensures { Gives (λ x. (x.0, x.1.now)) result (instruction.read bytes.now) }
{
    let (opcode, rest) = byte_at(bytes)?;
    match opcode {
        0x00 => Ok((Instruction::Push(Push::True), rest)),
        0x01 => Ok((Instruction::Push(Push::False), rest)),
        0x10 => Ok((Instruction::Binary(Binary::Add), rest)),
        0x11 => Ok((Instruction::Binary(Binary::Sub), rest)),
        0x12 => Ok((Instruction::Binary(Binary::Mul), rest)),
        0x13 => Ok((Instruction::Unary(Unary::Neg), rest)),
        0x14 => Ok((Instruction::Unary(Unary::Abs), rest)),
        0x20 => Ok((Instruction::Binary(Binary::Equal), rest)),
        0x21 => Ok((Instruction::Binary(Binary::NotEqual), rest)),
        0x22 => Ok((Instruction::Binary(Binary::Less), rest)),
        0x23 => Ok((Instruction::Binary(Binary::AtMost), rest)),
        0x24 => Ok((Instruction::Binary(Binary::Greater), rest)),
        0x25 => Ok((Instruction::Binary(Binary::AtLeast), rest)),
        0x26 => Ok((Instruction::Unary(Unary::Not), rest)),
        0x27 => Ok((Instruction::Unary(Unary::IsNull), rest)),
        0x42 => Ok((Instruction::Binary(Binary::InSet), rest)),
        0x50 => Ok((Instruction::Unary(Unary::Year), rest)),
        0x51 => Ok((Instruction::Unary(Unary::Month), rest)),
        0x52 => Ok((Instruction::Unary(Unary::Day), rest)),
        0x54 => Ok((Instruction::Unary(Unary::Parent), rest)),
        0x55 => Ok((Instruction::Unary(Unary::Leaf), rest)),
        0x56 => Ok((Instruction::Unary(Unary::Length), rest)),
        0x57 => Ok((Instruction::Unary(Unary::Units), rest)),
        0x58 => Ok((Instruction::Unary(Unary::Cost), rest)),
        0x59 => Ok((Instruction::Unary(Unary::Number), rest)),
        0x5a => Ok((Instruction::Unary(Unary::Currency), rest)),
        0x5e => Ok((Instruction::Unary(Unary::RootRank), rest)),
        _ => with_operand_at(opcode, rest, bytes),
    }
}
