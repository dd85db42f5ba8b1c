//! The machine's operations for those of a query.
ghost use Rattle.std.specs.Prelude.{◌≡◌, Some, IfOk};
ghost use Rattle.bql_code.specs.Kept.{core_of};
ghost use Rattle.bql_lowering.specs.Lowered as rule;
ghost use Rattle.bql_parser.specs.Small.{IsSmallUnary};

use bql_code::{Change, Core, ShortText};
use bql_rules::{Operation, operation_of};
use bql_tree::{BinaryOperator, Function, UnaryOperator};
use query_code::Unary;
use query_values::Binary;
use std::alloc::{AllocError, Global};

/// An operation of the machine on one value.
pub(crate) fn on_one<'a>(alloc: Global, op: Unary, x: Core<'a>) -> Result<Core<'a>, AllocError>
    ensures { IfOk result (λ r. core_of r ≡ rule.on_one op (core_of x.entry)) }
{
    Ok(Core::Change(Change::Plain(op), Box::new(alloc, x)?))
}

/// A number brought to more decimals, where it has fewer.
pub(crate) fn aligned<'a>(
    alloc: Global,
    places: u8,
    to: u8,
    x: Box<Core<'a>>,
) -> Result<Box<Core<'a>>, AllocError>
    ensures { IfOk result (λ r. core_of r.value
        ≡ rule.aligned (Some places) to (core_of x.entry.value)) }
{
    if places < to {
        Ok(Box::new(alloc, Core::Change(Change::Plain(Unary::Align(to)), x))?)
    } else {
        Ok(x)
    }
}

/// Of two numbers each is brought to the decimals of the other.
fn joined<'a>(
    alloc: Global,
    op: Binary,
    places: (Option<u8>, Option<u8>),
    x: Box<Core<'a>>,
    y: Box<Core<'a>>,
) -> Result<Core<'a>, AllocError>
    ensures { IfOk result (λ r. core_of r
        ≡ rule.joined op places.0 places.1 (core_of x.entry.value) (core_of y.entry.value)) }
{
    match places {
        (Some(p), Some(q)) => {
            let most = p.max(q);
            let x = aligned(alloc, p, most, x)?;
            let y = aligned(alloc, q, most, y)?;
            Ok(Core::Join(op, x, y))
        }
        _ => Ok(Core::Join(op, x, y)),
    }
}

/// What an operation in front of one expression is.
pub(crate) fn of_unary<'a>(
    alloc: Global,
    op: &UnaryOperator<'a>,
    x: Core<'a>,
) -> Result<Core<'a>, AllocError>
    requires { IsSmallUnary op.now }
    ensures { IfOk result (λ r. core_of r ≡ rule.of_unary op.now (core_of x.entry)) }
{
    match op {
        UnaryOperator::Not => on_one(alloc, Unary::Not, x),
        UnaryOperator::Minus => on_one(alloc, Unary::Neg, x),
        UnaryOperator::Matches(pattern) => {
            let pattern = ShortText::new(pattern);
            Ok(Core::Change(Change::Matches(pattern), Box::new(alloc, x)?))
        }
        UnaryOperator::Root(components) => on_one(alloc, Unary::Root(*components), x),
    }
}

/// What an operation is of which one side is NULL.
pub(crate) fn of_null<'a>(
    alloc: Global,
    op: BinaryOperator,
    x: Core<'a>,
) -> Result<Core<'a>, AllocError>
    ensures { IfOk result (λ r. core_of r ≡ rule.of_null op (core_of x.entry)) }
{
    let is_null = on_one(alloc, Unary::IsNull, x)?;
    match op {
        BinaryOperator::NotEqual => on_one(alloc, Unary::Not, is_null),
        _ => Ok(is_null),
    }
}

/// What an operation between two expressions is, of which numbers have so many decimals.
pub(crate) fn of_binary<'a>(
    alloc: Global,
    op: BinaryOperator,
    places: (Option<u8>, Option<u8>),
    x: Core<'a>,
    y: Core<'a>,
) -> Result<Core<'a>, AllocError>
    ensures { IfOk result (λ r. core_of r
        ≡ rule.of_binary op places.0 places.1 (core_of x.entry) (core_of y.entry)) }
{
    let x = Box::new(alloc, x)?;
    let y = Box::new(alloc, y)?;
    match operation_of(op) {
        Operation::Or => Ok(Core::Or(x, y)),
        Operation::And => Ok(Core::And(x, y)),
        Operation::Aligned(op) => joined(alloc, op, places, x, y),
        Operation::Plain(op) => Ok(Core::Join(op, x, y)),
    }
}

/// The operation of the machine that a function of one argument is.
fn unary_of(function: Function) -> Option<Unary>
    ensures { result ≡ rule.unary_of function }
{
    match function {
        Function::Parent => Some(Unary::Parent),
        Function::Leaf => Some(Unary::Leaf),
        Function::Length => Some(Unary::Length),
        Function::Units => Some(Unary::Units),
        Function::Cost => Some(Unary::Cost),
        Function::Year => Some(Unary::Year),
        Function::Month => Some(Unary::Month),
        Function::Day => Some(Unary::Day),
        Function::Number => Some(Unary::Number),
        Function::Currency => Some(Unary::Currency),
        Function::Abs => Some(Unary::Abs),
        Function::RootRank => Some(Unary::RootRank),
        _ => None,
    }
}

/// What a function of one argument is.
pub(crate) fn of_function<'a>(
    alloc: Global,
    function: Function,
    x: Core<'a>,
) -> Result<Core<'a>, AllocError>
    ensures { IfOk result (λ r. core_of r ≡ rule.of_function function (core_of x.entry)) }
{
    match unary_of(function) {
        Some(op) => on_one(alloc, op, x),
        None => Ok(x),
    }
}
