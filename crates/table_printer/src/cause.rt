//! Why a table is not written.
use refusals::Cause;
use thiserror::Error;

/// What kept a table from being written.
#[derive(Clone, Copy, Debug, Drop, PartialEq, Eq, Error)]
pub enum PrintCause {
    /// The output failed or took nothing, behind so many bytes.
    #[error("P1 not written, {written} bytes were")]
    NotWritten { written: u64 },
}

impl Cause for PrintCause {
    ghost use Rattle.table_printer.specs.PrintCause as rule;

    ghost code_of = { rule.code_of };

    ghost place_of = { rule.place_of };

    fn code(&self) -> &'static str {
        match self {
            PrintCause::NotWritten { .. } => "P1",
        }
    }

    fn place(&self) -> Option<usize> {
        None
    }
}
