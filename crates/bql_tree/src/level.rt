//! Operators, by the levels on which they bind.
ghost use Rattle.std.specs.Prelude.{◌≡◌};
ghost use Rattle.bql_tree.specs.Level as rule;

use crate::tree::BinaryOperator;
use bql_lexer::Kind;

/// Levels of operators that stand in chains and group to the left.
#[derive(Clone, Copy, Drop, PartialEq, Eq)]
pub enum Level {
    Or,
    And,
    Sum,
    Product,
}

impl Level {
    /// The operator of the level that a token is.
    pub fn operator(self, kind: Kind) -> Option<BinaryOperator>
        ensures { result ≡ rule.operator_of self kind }
    {
        match (self, kind) {
            (Level::Or, Kind::Or) => Some(BinaryOperator::Or),
            (Level::And, Kind::And) => Some(BinaryOperator::And),
            (Level::Sum, Kind::Plus) => Some(BinaryOperator::Plus),
            (Level::Sum, Kind::Minus) => Some(BinaryOperator::Minus),
            (Level::Product, Kind::Star) => Some(BinaryOperator::Times),
            _ => None,
        }
    }
}

/// The comparison that a token is.
pub fn comparison_of(kind: Kind) -> Option<BinaryOperator>
    ensures { result ≡ rule.comparison_of kind }
{
    match kind {
        Kind::Equal => Some(BinaryOperator::Equal),
        Kind::NotEqual => Some(BinaryOperator::NotEqual),
        Kind::Less => Some(BinaryOperator::Less),
        Kind::LessOrEqual => Some(BinaryOperator::LessOrEqual),
        Kind::Greater => Some(BinaryOperator::Greater),
        Kind::GreaterOrEqual => Some(BinaryOperator::GreaterOrEqual),
        _ => None,
    }
}

/// Whether a sign in front of an expression is a minus.
pub fn sign_of(kind: Kind) -> Option<bool>
    ensures { result ≡ rule.sign_of kind }
{
    match kind {
        Kind::Minus => Some(true),
        Kind::Plus => Some(false),
        _ => None,
    }
}
