//! Which shape an instruction gives, or why it gives none.
ghost use Rattle.std.specs.Prelude.{◌≡◌, true, option_and_then};
ghost use Rattle.std.specs.List.{list_all};
ghost use Rattle.query_code.specs.declared.instruction.Instruction.TheVariants as instructions;
ghost use Rattle.query_code.specs.declared.instruction.Push.TheVariants as pushes;
ghost use Rattle.query_code.specs.declared.instruction.Unary.TheVariants.{InList};
ghost use Rattle.plain_machine.specs.Pool as pools;
ghost use Rattle.query_rows.specs.Shape.{fitting};
ghost use Rattle.well_shaped.specs.Laws.{is_some};
ghost use Rattle.well_shaped.specs.Sections as sections;
ghost use Rattle.verify_programs.specs.Loading.{has_members};
ghost use Rattle.verify_programs.specs.Answers.{Gives, IfRefused, IsEntryCause, IsNamedCause};
ghost use Rattle.verify_programs.specs.Answers.{IsOther, IsUnknownCause, Listed};

use crate::cause::CodeCause;
use crate::loads::Loads;
use query_code::{Constant, Push, Unary};
use query_rows::{Misfit, Shape, binary_shape, fitting, rules};
use query_values::Binary;
use refusals::Refusal;

/// The cause that a misfit is.
fn told(ruled: Result<Shape, Misfit>) -> Result<Shape, Refusal<CodeCause>>
    ensures gives { Gives result (sections.given ruled) }
    ensures cause { IfRefused result IsOther }
{
    match ruled {
        Ok(shape) => Ok(shape),
        Err(Misfit::Kind) => Err(Refusal::Refused(CodeCause::Operands)),
        Err(Misfit::TooWide) => Err(Refusal::Refused(CodeCause::TooWide)),
    }
}

// ---- what is loaded

/// The shape of a text, a number or a day of the pool.
fn constant_shape(entry: &Constant<'_>) -> Option<Shape>
    ensures { result ≡ sections.shape_in entry.now }
{
    match entry {
        Constant::Text(_) => Some(Shape::Text),
        Constant::Number(number) => Some(Shape::Number {
            places: number.places,
            most: number.count.unsigned_abs(),
        }),
        Constant::Day(_) => Some(Shape::Day),
        Constant::Pattern(_) | Constant::Texts(_) | Constant::Numbers(_) | Constant::Days(_) => {
            None
        }
    }
}

fn is_text(entry: &Constant<'_>) -> bool
    ensures { result ≡ is_some (pools.key_in entry.now) }
{
    matches!(entry, Constant::Text(_text))
}

fn is_pattern(entry: &Constant<'_>) -> bool
    ensures { result ≡ is_some (pools.pattern_in entry.now) }
{
    matches!(entry, Constant::Pattern(_text))
}

fn is_list(entry: &Constant<'_>) -> bool
    ensures { result ≡ is_some (pools.members_in entry.now) }
{
    match entry {
        Constant::Texts(_texts) => true,
        Constant::Numbers(_numbers) => true,
        Constant::Days(_days) => true,
        _ => false,
    }
}

fn has_text(pool: &[Constant<'_>], entry: u16) -> bool
    ensures { result ≡ is_some (pools.key_at pool.now entry) }
{
    match pool.get(entry as usize) {
        Some(entry) => is_text(entry),
        None => false,
    }
}

fn has_pattern(pool: &[Constant<'_>], entry: u16) -> bool
    ensures { result ≡ is_some (pools.pattern_at pool.now entry) }
{
    match pool.get(entry as usize) {
        Some(entry) => is_pattern(entry),
        None => false,
    }
}

fn has_list(pool: &[Constant<'_>], entry: u16) -> bool
    ensures { result ≡ is_some (pools.members_at pool.now entry) }
{
    match pool.get(entry as usize) {
        Some(entry) => is_list(entry),
        None => false,
    }
}

/// The shape of a constant of the pool.
fn constant_at(pool: &[Constant<'_>], entry: u16) -> Result<Shape, Refusal<CodeCause>>
    ensures gives { Gives result
        (option_and_then (λ s. sections.given (fitting s)) (sections.shape_at pool.now entry)) }
    ensures cause { IfRefused result (IsEntryCause (is_some (sections.shape_at pool.now entry))) }
{
    let Some(entry) = pool.get(entry as usize) else {
        return Err(Refusal::Refused(CodeCause::PoolEntry));
    };
    let Some(shape) = constant_shape(entry) else {
        return Err(Refusal::Refused(CodeCause::PoolEntry));
    };
    told(fitting(shape))
}

/// The shape of what is loaded, where it is known.
fn known(shape: Option<Shape>) -> Result<Shape, Refusal<CodeCause>>
    ensures gives { Gives result (option_and_then (λ s. sections.given (fitting s)) shape) }
    ensures cause { IfRefused result (IsUnknownCause (is_some shape)) }
{
    match shape {
        Some(shape) => told(fitting(shape)),
        None => Err(Refusal::Refused(CodeCause::Unknown)),
    }
}

/// The shape of a text of metadata, under a key of the pool.
fn metadata_at(pool: &[Constant<'_>], loads: &Loads, key: u16) -> Result<Shape, Refusal<CodeCause>>
    ensures gives { Gives result (option_and_then (λ s. sections.given (fitting s))
        (sections.text_at loads.now (pools.key_at pool.now key))) }
    ensures cause { IfRefused result
        (λ c. IsNamedCause pool.now loads.now c (instructions.Push (pushes.Meta key))) }
{
    if !loads.has_posting() {
        return Err(Refusal::Refused(CodeCause::Unknown));
    }
    if !has_text(pool, key) {
        return Err(Refusal::Refused(CodeCause::PoolEntry));
    }
    Ok(Shape::Text)
}

/// The shape of what an instruction loads.
pub fn loaded(pool: &[Constant<'_>], loads: &Loads, op: Push) -> Result<Shape, Refusal<CodeCause>>
    ensures gives { Gives result (sections.push_of pool.now loads.now op) }
    ensures cause { IfRefused result (λ c. IsNamedCause pool.now loads.now c (instructions.Push op)) }
{
    match op {
        Push::True | Push::False => Ok(Shape::Truth),
        Push::Const(entry) => constant_at(pool, entry),
        Push::LoadColumn(column) => known(loads.column(column)),
        Push::LoadKey(key) => known(loads.key(key)),
        Push::LoadAggregate(aggregate) => known(loads.aggregate(aggregate)),
        Push::Meta(key) | Push::EntryMeta(key) | Push::AnyMeta(key) => {
            metadata_at(pool, loads, key)
        }
    }
}

// ---- operations

/// Whether the pool has what an operation names there, in the right kind. No file has an operation
/// on the first 0 components.
pub fn has_named(pool: &[Constant<'_>], op: Unary) -> bool
    ensures { result ≡ is_some (pools.operation_of pool.now op) }
{
    match op {
        Unary::Match(entry) | Unary::MatchAny(entry) => has_pattern(pool, entry),
        Unary::InList(entry) => has_list(pool, entry),
        Unary::Root(components) => components > 0,
        _ => true,
    }
}

/// Whether a value is in a list: it has to be of the kind and the decimals of its members.
#[tactic(auto, using(crate::proofs::ListFacts::texts_listed, crate::proofs::ListFacts::days_listed, crate::proofs::ListFacts::numbers_listed))]
fn among(list: &Constant<'_>, shape: Shape) -> Result<Shape, Misfit>
    requires some { has_members list.now ≡ true }
    requires list { is_some (pools.members_in list.now) ≡ true }
    ensures { Listed result (pools.members_in list.now) shape }
{
    match (list, shape) {
        (Constant::Texts(_texts), _) => rules::of_text(Shape::Truth, shape),
        (Constant::Days(_days), _) => rules::of_day(Shape::Truth, shape),
        (Constant::Numbers(numbers), Shape::Number { places, .. }) if places == numbers.places => {
            Ok(Shape::Truth)
        }
        _ => Err(Misfit::Kind),
    }
}

/// Whether a value is in a list of the pool.
fn among_at(pool: &[Constant<'_>], entry: u16, shape: Shape) -> Result<Shape, Refusal<CodeCause>>
    requires some { list_all has_members pool.now ≡ true }
    requires named { is_some (pools.members_at pool.now entry) ≡ true }
    ensures gives { Gives result (sections.unary_of pool.now (InList entry) shape) }
    ensures cause { IfRefused result IsOther }
{
    match pool.get(entry as usize) {
        Some(list) => told(among(list, shape)),
        None => unreachable!(),
    }
}

/// The shape of what an operation on one value gives.
pub fn unary_rule(
    pool: &[Constant<'_>],
    op: Unary,
    shape: Shape,
) -> Result<Shape, Refusal<CodeCause>>
    requires some { list_all has_members pool.now ≡ true }
    requires named { is_some (pools.operation_of pool.now op) ≡ true }
    ensures gives { Gives result (sections.unary_of pool.now op shape) }
    ensures cause { IfRefused result IsOther }
{
    match op {
        Unary::Align(places) => told(rules::aligned(places, shape)),
        Unary::Neg => told(rules::negated(shape)),
        Unary::Abs => told(rules::magnitude_of(shape)),
        Unary::Not => told(rules::of_truth(Shape::Truth, shape)),
        Unary::IsNull => Ok(Shape::Truth),
        Unary::Match(_) => told(rules::of_text(Shape::Truth, shape)),
        Unary::MatchAny(_) => told(rules::of_set(Shape::Truth, shape)),
        Unary::InList(entry) => among_at(pool, entry, shape),
        Unary::Year => told(rules::of_day(rules::whole(9999), shape)),
        Unary::Month => told(rules::of_day(rules::whole(12), shape)),
        Unary::Day => told(rules::of_day(rules::whole(31), shape)),
        Unary::Root(_) | Unary::Parent | Unary::Leaf => told(rules::of_text(Shape::Text, shape)),
        Unary::Length => told(rules::length_of(shape)),
        Unary::Units => told(rules::units_of(shape)),
        Unary::Cost => told(rules::cost_of(shape)),
        Unary::Number => told(rules::number_of(shape)),
        Unary::Currency => told(rules::currency_of(shape)),
        Unary::RootRank => told(rules::of_text(rules::whole(5), shape)),
    }
}

/// The shape of what an operation on two values gives.
pub fn binary_rule(op: Binary, a: Shape, b: Shape) -> Result<Shape, Refusal<CodeCause>>
    ensures gives { Gives result (sections.binary_of op a b) }
    ensures cause { IfRefused result IsOther }
{
    told(binary_shape(op, a, b))
}
