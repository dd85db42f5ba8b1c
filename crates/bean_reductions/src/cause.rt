//! Why a reduction isn't made.
use refusals::Cause;
use thiserror::Error;

/// What keeps a reduction from being made.
#[derive(Clone, Copy, Debug, Drop, PartialEq, Eq, Error)]
pub enum LotCause {
    #[error("F13 no lot matches")]
    NoLotMatches,
    #[error("F14 ambiguous lots")]
    AmbiguousLots,
    #[error("F15 not enough units")]
    NotEnoughUnits,
}

impl Cause for LotCause {
    ghost use Rattle.bean_reductions.specs.LotCause as rule;

    ghost code_of = { rule.code_of };

    ghost place_of = { rule.place_of };

    fn code(&self) -> &'static str {
        match self {
            LotCause::NoLotMatches => "F13",
            LotCause::AmbiguousLots => "F14",
            LotCause::NotEnoughUnits => "F15",
        }
    }

    fn place(&self) -> Option<usize> {
        None
    }
}
