//! Why a query has no type, and where.
ghost use Rattle.std.specs.Prelude.{◌≡◌};
ghost use Rattle.bql_types.specs.Cause as rule;

use refusals::Cause;
use thiserror::Error;

/// Why a query has no type.
#[derive(Clone, Copy, Debug, Drop, PartialEq, Eq, Error)]
pub enum TypeCauseKind {
    /// An operand is of another kind than the operation takes, or there are more or fewer of them.
    #[error("Y1")]
    KindClash,
    /// An aggregate stands inside an aggregate, in a filter, in a group item, or in an order item
    /// of a query that doesn't aggregate.
    #[error("Y2")]
    AggregateMisplaced,
    /// A column or a metadata entry stands outside aggregates and keys of a query that aggregates.
    #[error("Y3")]
    NotGrouped,
    /// Rows can't be ordered by values of this kind.
    #[error("Y4")]
    NotOrderable,
    /// A value might be too wide to be held.
    #[error("Y5")]
    TooWide,
    /// The running balance stands in a filter, or in a query that aggregates.
    #[error("Y6")]
    BalanceMisplaced,
}

/// Why a query has no type, with the place of a byte.
#[derive(Clone, Copy, Debug, Drop, PartialEq, Eq, Error)]
#[error("{kind} at {place}")]
pub struct TypeCause {
    pub place: usize,
    pub kind: TypeCauseKind,
}

impl TypeCause {
    /// A cause, with the place of the byte at which it is told.
    pub fn at(kind: TypeCauseKind, place: usize) -> TypeCause
        ensures { result ≡ rule.cause_at kind place }
    {
        TypeCause { place, kind }
    }

    /// Whether it stands before another, or at the same place with a lesser number.
    fn is_before(self, other: TypeCause) -> bool
        ensures { result ≡ rule.is_before self other }
    {
        self.place < other.place
            || self.place == other.place && number_of(self.kind) < number_of(other.kind)
    }
}

impl Cause for TypeCause {
    ghost use Rattle.bql_types.specs.Cause as rule;

    ghost code_of = { rule.code_of };

    ghost place_of = { rule.place_of };

    fn code(&self) -> &'static str {
        match self.kind {
            TypeCauseKind::KindClash => "Y1",
            TypeCauseKind::AggregateMisplaced => "Y2",
            TypeCauseKind::NotGrouped => "Y3",
            TypeCauseKind::NotOrderable => "Y4",
            TypeCauseKind::TooWide => "Y5",
            TypeCauseKind::BalanceMisplaced => "Y6",
        }
    }

    fn place(&self) -> Option<usize> {
        Some(self.place)
    }
}

/// The number behind the letter Y.
fn number_of(kind: TypeCauseKind) -> u8
    ensures { result ≡ rule.number_of kind }
{
    match kind {
        TypeCauseKind::KindClash => 1,
        TypeCauseKind::AggregateMisplaced => 2,
        TypeCauseKind::NotGrouped => 3,
        TypeCauseKind::NotOrderable => 4,
        TypeCauseKind::TooWide => 5,
        TypeCauseKind::BalanceMisplaced => 6,
    }
}

/// The least of the causes that were found and one more.
pub(crate) fn sooner(found: Option<TypeCause>, cause: TypeCause) -> Option<TypeCause>
    ensures { result ≡ rule.sooner found cause }
{
    match found {
        None => Some(cause),
        Some(least) if cause.is_before(least) => Some(cause),
        Some(least) => Some(least),
    }
}

/// The least of the causes that were found and one more, if that holds.
pub(crate) fn where_true(
    found: Option<TypeCause>,
    is_cause: bool,
    cause: TypeCause,
) -> Option<TypeCause>
    ensures { result ≡ rule.told found (rule.where_true is_cause cause) }
{
    if is_cause {
        sooner(found, cause)
    } else {
        found
    }
}
