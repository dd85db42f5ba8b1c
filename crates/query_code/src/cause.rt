//! Why bytes are no query file.
use refusals::Cause;
use thiserror::Error;

/// What keeps bytes from being a query file.
#[derive(Clone, Copy, Debug, Drop, PartialEq, Eq, PartialOrd, Ord, Error)]
pub enum FileCauseKind {
    #[error("V1 magic")]
    Magic,
    #[error("V2 version")]
    Version,
    #[error("V3 truncated")]
    Truncated,
    #[error("V4 trailing bytes")]
    TrailingBytes,
    #[error("V5 bad field")]
    BadField,
    #[error("V6 not UTF-8")]
    NotUtf8,
}

/// What keeps bytes from being a query file, and at which byte.
#[derive(Clone, Copy, Debug, Drop, PartialEq, Eq, Error)]
#[error("{kind} at {place}")]
pub struct FileCause {
    pub kind: FileCauseKind,
    pub place: usize,
}

impl Cause for FileCause {
    ghost use Rattle.query_code.specs.FileCause as rule;

    ghost code_of = { rule.code_of };

    ghost place_of = { rule.place_of };

    fn code(&self) -> &'static str {
        match self.kind {
            FileCauseKind::Magic => "V1",
            FileCauseKind::Version => "V2",
            FileCauseKind::Truncated => "V3",
            FileCauseKind::TrailingBytes => "V4",
            FileCauseKind::BadField => "V5",
            FileCauseKind::NotUtf8 => "V6",
        }
    }

    fn place(&self) -> Option<usize> {
        Some(self.place)
    }
}

/// What is wrong, and how many bytes are left where it is.
#[derive(Clone, Copy, Drop, PartialEq, Eq)]
pub struct Stop {
    pub cause: FileCauseKind,
    pub left: usize,
}
