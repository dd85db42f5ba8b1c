//! What turns tell.

/// Where a turn left its run.
#[derive(Clone, Copy, Drop, PartialEq, Eq)]
pub enum Turn {
    /// Before an instruction.
    Going,
    /// At its end, with an answer.
    Done,
    /// Without the memory to go on. It stays there.
    Failed,
}
