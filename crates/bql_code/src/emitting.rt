//! The instructions of expressions.
ghost use Rattle.std.specs.Prelude.{◌≡◌, ◌≤◌, ◌+◌, ◌++◌, ◌∷◌, [], length, OnOk, IfOk};
ghost use Rattle.limits.specs.declared.counts.TheConstants.{LONGEST_SECTION};
ghost use Rattle.bql_code.specs.Code as rule;
ghost use Rattle.query_code.specs.declared.program.Constant.TheVariants as constants;
ghost use Rattle.bql_code.specs.Kept.{load_of, change_of, core_of, cores_of};
ghost use Rattle.bql_code.specs.Literals.{constant_of};
ghost use Rattle.bql_code.specs.Pool.{index_in};

use crate::computed::{Change, Core, Load};
use crate::literal::{Literal, ShortText};
use crate::pool::Pool;
use bql_tree::MetadataOwner;
use query_code::{Instruction, Push, Unary};
use std::alloc::AllocError;

/// The index of a constant in a pool.
fn index_of(pool: &Pool<'_>, literal: &Literal<'_>) -> u16
    requires { length pool.now ≤ LONGEST_SECTION }
    ensures { result ≡ index_in pool.now (constant_of literal.now) }
{
    pool.index_of(literal) as u16
}

/// The index of a text in a pool.
fn index_of_text(pool: &Pool<'_>, text: &ShortText<'_>) -> u16
    requires { length pool.now ≤ LONGEST_SECTION }
    ensures { result ≡ index_in pool.now (constants.Text text.now.text) }
{
    index_of(pool, &Literal::Text(text.lend()))
}

/// The index of a pattern in a pool.
fn index_of_pattern(pool: &Pool<'_>, pattern: &ShortText<'_>) -> u16
    requires { length pool.now ≤ LONGEST_SECTION }
    ensures { result ≡ index_in pool.now (constants.Pattern pattern.now.text) }
{
    index_of(pool, &Literal::Pattern(pattern.lend()))
}

fn truth(value: bool) -> Push
    ensures { result ≡ rule.of_truth [] value }
{
    if value { Push::True } else { Push::False }
}

/// What loads a text of metadata, by the index of its key.
fn metadata(owner: MetadataOwner, key: u16) -> Push
    ensures { result ≡ rule.of_entry [] owner key }
{
    match owner {
        MetadataOwner::Posting => Push::Meta(key),
        MetadataOwner::Transaction => Push::EntryMeta(key),
        MetadataOwner::Any => Push::AnyMeta(key),
    }
}

fn load(pool: &Pool<'_>, load: &Load<'_>) -> Push
    requires { length pool.now ≤ LONGEST_SECTION }
    ensures { result ≡ rule.load_of pool.now (load_of load.now) }
{
    match load {
        Load::Truth(value) => truth(*value),
        Load::Constant(entry) => Push::Const(index_of(pool, &entry.literal)),
        Load::Column(column) => Push::LoadColumn(column.number()),
        Load::Metadata(owner, key) => metadata(*owner, index_of_text(pool, key)),
        Load::Key(index) => Push::LoadKey(*index),
        Load::Aggregate(index) => Push::LoadAggregate(*index),
    }
}

fn change(pool: &Pool<'_>, change: &Change<'_>) -> Unary
    requires { length pool.now ≤ LONGEST_SECTION }
    ensures { result ≡ rule.change_of pool.now (change_of change.now) }
{
    match change {
        Change::Plain(op) => *op,
        Change::Matches(pattern) => Unary::Match(index_of_pattern(pool, pattern)),
        Change::SomeMatch(pattern) => Unary::MatchAny(index_of_pattern(pool, pattern)),
        Change::Among(entry) => Unary::InList(index_of(pool, &entry.literal)),
    }
}

/// One more instruction.
fn put(code: &mut Vec<Instruction>, instruction: Instruction) -> Result<(), AllocError>
    ensures code { OnOk result (code.new.items ≡ code.old.items ++ instruction ∷ []) }
    ensures length { OnOk result (length code.new.items ≡ length code.old.items + 1) }
{
    code.push(instruction)?;
    Ok(())
}

/// Writes TRUE where the value on the stack is, and else FALSE. Answers the place of the FALSE.
fn put_verdict(code: &mut Vec<Instruction>) -> Result<u16, AllocError>
    requires { length code.old.items + 4 ≤ LONGEST_SECTION }
    ensures code { OnOk result (code.new.items
        ≡ code.old.items ++ rule.verdict (length code.old.items)) }
    ensures length { OnOk result (length code.new.items ≡ length code.old.items + 4) }
    ensures place { IfOk result (λ place. place ≡ length code.old.items + 3) }
{
    let place = code.len() + 3;
    put(code, Instruction::JumpIfFalse(place as u16))?;
    put(code, Instruction::Push(Push::True))?;
    put(code, Instruction::Jump((place + 1) as u16))?;
    put(code, Instruction::Push(Push::False))?;
    Ok(place as u16)
}

/// Writes the instructions of an expression behind others, where they have room in a section.
pub fn emit(code: &mut Vec<Instruction>, pool: &Pool<'_>, core: &Core<'_>) -> Result<(), AllocError>
    requires pool { length pool.now ≤ LONGEST_SECTION }
    requires room { length code.old.items + rule.size (core_of core.now) ≤ LONGEST_SECTION }
    ensures code { OnOk result (code.new.items
        ≡ code.old.items ++ rule.code pool.now (length code.old.items) (core_of core.now)) }
    ensures length { OnOk result (length code.new.items
        ≡ length code.old.items + rule.size (core_of core.now)) }
{
    match core {
        Core::Load(of) => put(code, Instruction::Push(load(pool, of))),
        Core::Change(op, x) => {
            emit(code, pool, x)?;
            put(code, Instruction::Unary(change(pool, op)))
        }
        Core::Join(op, x, y) => {
            emit(code, pool, x)?;
            emit(code, pool, y)?;
            put(code, Instruction::Binary(*op))
        }
        Core::And(x, y) => {
            emit(code, pool, x)?;
            let jump = code.len();
            put(code, Instruction::JumpIfFalse(0))?;
            emit(code, pool, y)?;
            let no = put_verdict(code)?;
            code[jump] = Instruction::JumpIfFalse(no);
            Ok(())
        }
        Core::Or(x, y) => {
            emit(code, pool, x)?;
            let jump = code.len();
            put(code, Instruction::JumpIfFalse((jump + 3) as u16))?;
            put(code, Instruction::Push(Push::True))?;
            put(code, Instruction::Jump(0))?;
            emit(code, pool, y)?;
            let no = put_verdict(code)?;
            code[jump + 2] = Instruction::Jump(no + 1);
            Ok(())
        }
    }
}

/// Writes the instructions of some expressions, one behind the other.
pub fn emit_all(
    code: &mut Vec<Instruction>,
    pool: &Pool<'_>,
    cores: &[Core<'_>],
) -> Result<(), AllocError>
    requires pool { length pool.now ≤ LONGEST_SECTION }
    requires room { length code.old.items + rule.all_size (cores_of cores.now) ≤ LONGEST_SECTION }
    ensures { OnOk result (code.new.items
        ≡ code.old.items ++ rule.all_code pool.now (length code.old.items) (cores_of cores.now)) }
{
    for core in cores {
        emit(code, pool, core)?;
    }
    Ok(())
}
