//! Why a query of the grammar is refused, and where.
ghost use Rattle.std.specs.Prelude.{◌≡◌};
ghost use Rattle.bql_tree.specs.Cause as rule;

use refusals::Cause;
use thiserror::Error;

/// Why a query of the grammar is refused.
#[derive(Clone, Copy, Debug, Drop, PartialEq, Eq, Error)]
pub enum PartCauseKind {
    /// No column, function or target has the name.
    #[error("Q2")]
    UnknownName,
    /// The language has it, and the profile leaves it out.
    #[error("Q3")]
    OutsideProfile,
}

/// Why a query of the grammar is refused, with the place of a byte.
#[derive(Clone, Copy, Debug, Drop, PartialEq, Eq, Error)]
#[error("{kind} at {place}")]
pub struct PartCause {
    pub place: usize,
    pub kind: PartCauseKind,
}

impl PartCause {
    /// `Q2`: the name at that byte isn't known.
    pub fn unknown_name(place: usize) -> PartCause
        ensures { result ≡ rule.unknown_name place }
    {
        PartCause {
            place,
            kind: PartCauseKind::UnknownName,
        }
    }

    /// `Q3`: what begins at that byte is outside the profile.
    pub fn outside_profile(place: usize) -> PartCause
        ensures { result ≡ rule.outside_profile place }
    {
        PartCause {
            place,
            kind: PartCauseKind::OutsideProfile,
        }
    }

    /// The one of two at the lesser place, and of two at one place an unknown name.
    pub fn least(self, other: PartCause) -> PartCause
        ensures { result ≡ rule.least self other }
    {
        if self.place < other.place {
            return self;
        }
        if other.place < self.place {
            return other;
        }
        match self.kind {
            PartCauseKind::UnknownName => self,
            PartCauseKind::OutsideProfile => other,
        }
    }
}

impl Cause for PartCause {
    ghost use Rattle.bql_tree.specs.Cause as rule;

    ghost code_of = { rule.code_of };

    ghost place_of = { rule.place_of };

    fn code(&self) -> &'static str {
        match self.kind {
            PartCauseKind::UnknownName => "Q2",
            PartCauseKind::OutsideProfile => "Q3",
        }
    }

    fn place(&self) -> Option<usize> {
        Some(self.place)
    }
}

/// Both of two, or the least cause.
pub fn both<A: Drop, B: Drop>(
    a: Result<A, PartCause>,
    b: Result<B, PartCause>,
) -> Result<(A, B), PartCause>
    ensures { result ≡ rule.both a b }
{
    match (a, b) {
        (Ok(a), Ok(b)) => Ok((a, b)),
        (Ok(_), Err(cause)) => Err(cause),
        (Err(cause), Ok(_)) => Err(cause),
        (Err(cause), Err(other)) => Err(cause.least(other)),
    }
}
