//! Why a ledger isn't booked.
use refusals::Cause;

/// Why nothing is booked.
#[derive(Clone, Copy, Debug, Drop, PartialEq, Eq)]
pub enum BookCause {
    /// There are more postings than a ledger holds ([`limits::MOST_POSTINGS`]).
    TooManyPostings,
}

impl Cause for BookCause {
    ghost use Rattle.bean_replay.specs.BookCause as rule;

    ghost code_of = { rule.code_of };

    ghost place_of = { rule.place_of };

    fn code(&self) -> &'static str {
        match self {
            BookCause::TooManyPostings => "B1",
        }
    }

    fn place(&self) -> Option<usize> {
        None
    }
}
