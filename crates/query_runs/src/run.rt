//! What a run reads, and where it stands.
ghost use Rattle.std.specs.Prelude.{◌≡◌};
ghost use Rattle.plain_machine.specs.Reading as spec;

use posting_table::Ledger;
use query_answer::AnswerRows;
use query_code::Parts;
use query_groups::Groups;
use query_sections::{Finders, Frame};
use query_values::Value;

/// A program, and the ledger that it runs over.
#[derive(Clone, Copy)]
pub struct Inputs<'r, 'a> {
    pub parts: &'r Parts<'r>,
    pub ledger: &'r Ledger<'a>,
    /// Whether the program reads the running inventory, which else isn't kept.
    pub reads_running: bool,
    ghost reads: { reads_running ≡ spec.reads_running parts.now },
}

/// The section that a run is in.
#[derive(Clone, Copy, Drop, PartialEq, Eq)]
pub enum Stage {
    /// At a posting, of which it is told whether it passes.
    Filter,
    /// At a posting that passes.
    Row,
    /// At a group, behind all postings.
    Last,
    Done,
}

/// A run that stands before an instruction, or has come to its end.
pub struct Run<'r> {
    pub stage: Stage,
    /// The number of the posting.
    pub row: usize,
    /// The number of the group.
    pub group: usize,
    pub frame: Frame<'r>,
    pub finders: Finders<'r>,
    /// The sum of the positions of all postings that passed; nothing where the program doesn't read
    /// it.
    pub running: Value<'r>,
    pub groups: Groups<'r>,
    /// The rows that came out, in their order.
    pub rows: AnswerRows<'r>,
}

/// Written out, so that what gives one up needs to know nothing of what is in it.
impl Drop for Run<'_> {
    fn drop(self) {
        let Run {
            stage: _,
            row: _,
            group: _,
            frame: _,
            finders: _,
            running: _,
            groups: _,
            rows: _,
        } = self;
    }
}

impl<'r> Run<'r> {
    /// The rows that came out so far, in their order.
    pub fn into_rows(self) -> AnswerRows<'r>
        ensures { result ≡ self.entry.rows }
    {
        let Run {
            stage: _,
            row: _,
            group: _,
            frame: _,
            finders: _,
            running: _,
            groups: _,
            rows,
        } = self;
        rows
    }
}
