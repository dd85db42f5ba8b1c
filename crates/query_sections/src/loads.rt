//! What the instructions of a section read.

use limits::Version;
use posting_table::HeldRow;
use query_values::Value;

/// What a section reads, with the schema that its columns are of.
#[derive(Clone, Copy)]
pub struct Loads<'r, 'a, 's> {
    pub schema: Version,
    pub source: Source<'r, 'a, 's>,
}

/// Where a section reads.
#[derive(Clone, Copy)]
pub enum Source<'r, 'a, 's> {
    /// At a posting, with the running inventory where it may be read.
    Posting {
        row: &'r HeldRow<'a>,
        running: Option<Running<'r, 's>>,
    },
    /// At a group.
    Group {
        keys: &'s [Value<'r>],
        aggregates: &'s [Value<'r>],
    },
}

/// The running inventory, and what becomes of its copies.
#[derive(Clone, Copy)]
pub enum Running<'r, 's> {
    /// They are compared with one another, as where rows are told once.
    Compared(&'s Value<'r>),
    /// They are only gone through.
    Listed(&'s Value<'r>),
}
