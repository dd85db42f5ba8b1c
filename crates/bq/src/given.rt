//! What a command gives where it answers.
use crate::text::Text;
use bean_base::{List, Slice};
use endings::Verdict;

/// What a command gives where it answers.
#[derive(Drop)]
pub enum Given<'w> {
    /// A text for standard output, and what it says.
    Told(Verdict, Text),
    /// A file to be kept, under its name.
    Kept(Slice<'w>, List<u8>),
}
