//! What can be wrong in a ledger, and where.
ghost use Rattle.std.specs.Prelude.{◌≡◌};
ghost use Rattle.bean_base.specs.Fault.{number_of, text_of};

use crate::span::Place;
use std::fmt;

/// What is wrong, with its number.
#[derive(Clone, Copy, Debug, Drop, PartialEq, Eq)]
pub enum FaultKind {
    BadToken = 1,
    NotADirective,
    OutOfRange,
    UnmatchedPushOrPop,
    Ignored,
    AccountNotOpen,
    AccountClosed,
    CurrencyNotAllowed,
    OpenedTwice,
    ClosedButNotOpen,
    SeveralMissingAmounts,
    OutsideProfile,
    NoLotMatches,
    AmbiguousLots,
    NotEnoughUnits,
    NegativeCost,
    TooWide,
    Unbalanced,
    BalanceFails,
    UnusedPad,
    PadAtCost,
    IncludeFault,
    UnknownMethod,
}

impl FaultKind {
    /// Its number, from 1.
    pub fn number(self) -> u8
        ensures { result ≡ number_of self }
    {
        self as u8
    }

    /// Its number and what it says.
    pub fn text(self) -> &'static str
        ensures { result.now ≡ text_of self }
    {
        match self {
            FaultKind::BadToken => "F1 bad token",
            FaultKind::NotADirective => "F2 not a directive",
            FaultKind::OutOfRange => "F3 value out of range",
            FaultKind::UnmatchedPushOrPop => "F4 push and pop do not match",
            FaultKind::Ignored => "F5 ignored",
            FaultKind::AccountNotOpen => "F6 account not open",
            FaultKind::AccountClosed => "F7 account closed",
            FaultKind::CurrencyNotAllowed => "F8 currency not allowed",
            FaultKind::OpenedTwice => "F9 opened twice",
            FaultKind::ClosedButNotOpen => "F10 closed but not open",
            FaultKind::SeveralMissingAmounts => "F11 several missing amounts",
            FaultKind::OutsideProfile => "F12 outside the profile",
            FaultKind::NoLotMatches => "F13 no lot matches",
            FaultKind::AmbiguousLots => "F14 ambiguous lots",
            FaultKind::NotEnoughUnits => "F15 not enough units",
            FaultKind::NegativeCost => "F16 negative cost",
            FaultKind::TooWide => "F17 too wide",
            FaultKind::Unbalanced => "F18 unbalanced",
            FaultKind::BalanceFails => "F19 balance fails",
            FaultKind::UnusedPad => "F20 unused pad",
            FaultKind::PadAtCost => "F21 pad at cost",
            FaultKind::IncludeFault => "F22 include fault",
            FaultKind::UnknownMethod => "F23 unknown method",
        }
    }
}

impl fmt::Display for FaultKind {
    ghost use Rattle.std.specs.Prelude.{Some};
    ghost use Rattle.bean_base.specs.Fault.{text_of};

    ghost output = { λ kind. Some (text_of kind) };

    fn fmt<W: fmt::Write>(&self, f: &mut fmt::Formatter<W>) -> fmt::Result {
        f.pad(self.text())
    }
}

/// A fault of a ledger, at a place.
#[derive(Clone, Copy, Debug, PartialEq, Eq)]
pub struct Fault {
    pub kind: FaultKind,
    pub place: Place,
}
