//! Items that can be had once more.
ghost use Rattle.std.specs.Prelude.{◌≡◌};

use bean_grammar::{Mark, MetaEntry};

/// What lends from a text, and takes no memory.
pub trait Lend: Sized + Drop {
    /// The same item once more.
    fn again(&self) -> Self
        ensures { result ≡ self.now };
}

impl Lend for Mark<'_> {
    fn again(&self) -> Self {
        match self {
            Mark::Tag(tag) => Mark::Tag(tag.lend()),
            Mark::Link(link) => Mark::Link(link.lend()),
        }
    }
}

impl Lend for MetaEntry<'_> {
    fn again(&self) -> Self {
        self.lend()
    }
}
