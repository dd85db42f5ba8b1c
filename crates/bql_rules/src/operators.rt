//! The shapes that operators give, and what the machine does for them.
ghost use Rattle.std.specs.Prelude.{◌≡◌};
ghost use Rattle.bql_rules.specs.Rules as rule;

use bql_tree::{BinaryOperator, UnaryOperator};
use query_rows::rules::{aligned, negated, of_text, of_truth};
use query_rows::{Misfit, Shape};
use query_values::Binary;

/// What an operator gives on an operand of the shape.
pub fn unary_shape(op: &UnaryOperator<'_>, shape: Shape) -> Result<Shape, Misfit>
    ensures { result ≡ rule.unary_shape op.now shape }
{
    match op {
        UnaryOperator::Not => of_truth(Shape::Truth, shape),
        UnaryOperator::Minus => negated(shape),
        UnaryOperator::Matches(_) => of_text(Shape::Truth, shape),
        UnaryOperator::Root(_) => of_text(Shape::Text, shape),
    }
}

/// What `AND` and `OR` give.
fn of_truths(a: Shape, b: Shape) -> Result<Shape, Misfit>
    ensures { result ≡ rule.of_truths a b }
{
    match (a, b) {
        (Shape::Truth, Shape::Truth) => Ok(Shape::Truth),
        _ => Err(Misfit::Kind),
    }
}

/// Two operands, of which two numbers are brought to the greater count of decimals, and what the
/// machine's operation then gives.
fn by_machine(op: Binary, a: Shape, b: Shape) -> Result<Shape, Misfit>
    ensures { result ≡ rule.by_machine op a b }
{
    match (a, b) {
        (Shape::Number { places: p, .. }, Shape::Number { places: q, .. }) => {
            let places = p.max(q);
            let a = aligned(places, a)?;
            let b = aligned(places, b)?;
            query_rows::binary_shape(op, a, b)
        }
        _ => query_rows::binary_shape(op, a, b),
    }
}

/// What the machine does for an operator between two values.
#[derive(Clone, Copy, Drop, PartialEq, Eq)]
pub enum Operation {
    Or,
    And,
    /// An operation on both, of which two numbers are first brought to the greater count of decimals.
    Aligned(Binary),
    /// One on both as they are.
    Plain(Binary),
}

/// What the machine does for an operator, neither of whose operands is a NULL.
pub fn operation_of(op: BinaryOperator) -> Operation
    ensures { result ≡ rule.operation_of op }
{
    match op {
        BinaryOperator::Or => Operation::Or,
        BinaryOperator::And => Operation::And,
        BinaryOperator::Equal => Operation::Aligned(Binary::Equal),
        BinaryOperator::NotEqual => Operation::Aligned(Binary::NotEqual),
        BinaryOperator::Less => Operation::Aligned(Binary::Less),
        BinaryOperator::LessOrEqual => Operation::Aligned(Binary::AtMost),
        BinaryOperator::Greater => Operation::Aligned(Binary::Greater),
        BinaryOperator::GreaterOrEqual => Operation::Aligned(Binary::AtLeast),
        BinaryOperator::In => Operation::Plain(Binary::InSet),
        BinaryOperator::Plus => Operation::Aligned(Binary::Add),
        BinaryOperator::Minus => Operation::Aligned(Binary::Sub),
        BinaryOperator::Times => Operation::Plain(Binary::Mul),
    }
}

/// What an operator gives between operands of these shapes, neither of which is a NULL.
pub fn binary_shape(op: BinaryOperator, a: Shape, b: Shape) -> Result<Shape, Misfit>
    ensures { result ≡ rule.binary_shape op a b }
{
    match operation_of(op) {
        Operation::Or | Operation::And => of_truths(a, b),
        Operation::Aligned(op) => by_machine(op, a, b),
        Operation::Plain(op) => query_rows::binary_shape(op, a, b),
    }
}
