//! Why there is no ledger to read.
use refusals::Cause;

/// Why there are no texts.
#[derive(Clone, Copy, Debug, Drop, PartialEq, Eq)]
pub enum LoadCause {
    /// The ledger can't be read.
    Unreadable,
    /// The ledger is not UTF-8.
    NotUtf8,
    /// A text has more than 16 MiB or all that were read more than 64 MiB, an include line stands
    /// 16 texts deep, or 1,000 names were asked before it.
    TooLarge,
}

impl Cause for LoadCause {
    ghost use Rattle.bean_load.specs.LoadCause as rule;

    ghost code_of = { rule.code_of };

    ghost place_of = { rule.place_of };

    fn code(&self) -> &'static str {
        match self {
            LoadCause::Unreadable => "L1",
            LoadCause::NotUtf8 => "L2",
            LoadCause::TooLarge => "L3",
        }
    }

    fn place(&self) -> Option<usize> {
        None
    }
}
