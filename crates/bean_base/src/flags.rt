//! The flags of transactions and postings.
ghost use Rattle.std.specs.Prelude.{◌≡◌};
ghost use Rattle.bean_base.specs.Flag as spec;

/// Whether a transaction or posting is marked as complete, by `*` or `txn`, or incomplete, by `!`.
#[derive(Clone, Copy, Drop, PartialEq, Eq, Hash)]
pub enum Flag {
    Complete,
    Incomplete,
}

impl Flag {
    /// How a table shows the flag.
    pub fn spelling(self) -> &'static str
        ensures { result.now ≡ spec.spelling self }
    {
        match self {
            Flag::Complete => "*",
            Flag::Incomplete => "!",
        }
    }
}
