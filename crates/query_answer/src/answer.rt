//! Named columns of values, and what they took.
use crate::rows::AnswerRows;
use bean_base::{List, Slice};

/// Rows of values under the names of their columns.
pub struct Answer<'a> {
    pub headers: List<Slice<'a>>,
    pub rows: AnswerRows<'a>,
    /// How many instructions were executed.
    pub steps: u64,
    /// How many groups there were, or how many postings passed where nothing was grouped.
    pub groups: u64,
}

/// Written out, so that crates which give one up need to know nothing of what is in it.
impl Drop for Answer<'_> {
    fn drop(self) {
        let Answer {
            headers: _,
            rows: _,
            steps: _,
            groups: _,
        } = self;
    }
}
