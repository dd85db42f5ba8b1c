//! How many bytes instructions and entries of the pool take in a file.
ghost use Rattle.std.specs.Prelude.{◌≡◌, ◌<◌, ◌^◌, length};
ghost use Rattle.query_code.specs.ByteForm.{all_written};
ghost use Rattle.query_code.specs.InstructionForm.{instruction};
ghost use Rattle.query_code.specs.QueryFile.{constant};
ghost use Rattle.query_code.specs.declared.instruction.Instruction.TheVariants as instructions;

use query_code::{Constant, Instruction, Push, Unary};
use query_values::Binary;

/// The bytes of an instruction that gives a value: its opcode, and its operand if it has one.
#[tactic(auto, unfolding(query_code::specs::InstructionForm::instruction, query_code::specs::InstructionForm::operand_cases, query_code::specs::InstructionForm::word_cases))]
fn push_len(push: Push) -> usize
    ensures { result ≡ length (instruction.written (instructions.Push push)) }
{
    match push {
        Push::True => 1,
        Push::False => 1,
        Push::Const(_) => 3,
        Push::LoadColumn(_) => 2,
        Push::LoadKey(_) => 2,
        Push::LoadAggregate(_) => 2,
        Push::Meta(_) => 3,
        Push::EntryMeta(_) => 3,
        Push::AnyMeta(_) => 3,
    }
}

/// Those of an instruction that works on one value.
#[tactic(auto, unfolding(query_code::specs::InstructionForm::instruction, query_code::specs::InstructionForm::operand_cases, query_code::specs::InstructionForm::word_cases))]
fn unary_len(operation: Unary) -> usize
    ensures { result ≡ length (instruction.written (instructions.Unary operation)) }
{
    match operation {
        Unary::Align(_) => 2,
        Unary::Neg => 1,
        Unary::Abs => 1,
        Unary::Not => 1,
        Unary::IsNull => 1,
        Unary::Match(_) => 3,
        Unary::MatchAny(_) => 3,
        Unary::InList(_) => 3,
        Unary::Year => 1,
        Unary::Month => 1,
        Unary::Day => 1,
        Unary::Root(_) => 2,
        Unary::Parent => 1,
        Unary::Leaf => 1,
        Unary::Length => 1,
        Unary::Units => 1,
        Unary::Cost => 1,
        Unary::Number => 1,
        Unary::Currency => 1,
        Unary::RootRank => 1,
    }
}

/// Those of an instruction that works on two values.
#[tactic(auto, unfolding(query_code::specs::InstructionForm::instruction))]
fn binary_len(operation: Binary) -> usize
    ensures { result ≡ length (instruction.written (instructions.Binary operation)) }
{
    match operation {
        Binary::Add => 1,
        Binary::Sub => 1,
        Binary::Mul => 1,
        Binary::Equal => 1,
        Binary::NotEqual => 1,
        Binary::Less => 1,
        Binary::AtMost => 1,
        Binary::Greater => 1,
        Binary::AtLeast => 1,
        Binary::InSet => 1,
    }
}

/// Those of an instruction.
#[tactic(auto, unfolding(query_code::specs::InstructionForm::instruction, query_code::specs::InstructionForm::operand_cases, query_code::specs::InstructionForm::word_cases))]
fn instruction_len(step: Instruction) -> usize
    ensures { result ≡ length (instruction.written step) }
{
    match step {
        Instruction::Push(push) => push_len(push),
        Instruction::Unary(operation) => unary_len(operation),
        Instruction::Binary(operation) => binary_len(operation),
        Instruction::LoadSlot(_) => 2,
        Instruction::StoreSlot(_) => 2,
        Instruction::Jump(_) => 3,
        Instruction::JumpIfFalse(_) => 3,
    }
}

/// Those of instructions.
pub fn code_len(steps: &[Instruction]) -> usize
    requires { length (all_written instruction steps.now) < 2 ^ 64 }
    ensures { result ≡ length (all_written instruction steps.now) }
{
    let mut len = 0;
    let mut rest = steps;
    while let [first, after @ ..] = rest {
        len += instruction_len(*first);
        rest = after;
    }
    len
}

/// Those of an entry of the pool: its kind, and what it holds.
#[tactic(auto, using(crate::proofs::LengthFacts::text_len, crate::proofs::LengthFacts::pattern_len, crate::proofs::LengthFacts::number_len, crate::proofs::LengthFacts::day_len, crate::proofs::LengthFacts::numbers_len, crate::proofs::LengthFacts::days_len), unfolding(query_code::specs::QueryFile::constant))]
fn constant_len(entry: &Constant<'_>) -> usize
    requires { length (constant.written entry.now) < 2 ^ 64 }
    ensures { result ≡ length (constant.written entry.now) }
{
    match entry {
        Constant::Text(text) => 3 + text.text().len(),
        Constant::Number(_number) => 18,
        Constant::Day(_day) => 5,
        Constant::Pattern(text) => 3 + text.text().len(),
        Constant::Texts(texts) => 3 + texts.written_len(),
        Constant::Numbers(numbers) => 4 + 16 * numbers.counts.as_slice().len(),
        Constant::Days(days) => 3 + 4 * days.as_slice().len(),
    }
}

/// Those of entries of the pool.
pub fn pool_len(entries: &[Constant<'_>]) -> usize
    requires { length (all_written constant entries.now) < 2 ^ 64 }
    ensures { result ≡ length (all_written constant entries.now) }
{
    let mut len = 0;
    let mut rest = entries;
    while let [first, after @ ..] = rest {
        len += constant_len(first);
        rest = after;
    }
    len
}
