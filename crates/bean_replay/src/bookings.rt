//! Where bookings go.
ghost use Rattle.std.specs.Prelude.{◌≤◌, ◌+◌, ◌++◌, ◌∷◌, [], List, OnOk, length};

use crate::booking::Kept;
use std::alloc::AllocError;

/// What takes bookings as soon as they are made, in the order of the directives.
///
/// It says by `has_taken` what it is once it has taken some. What comes of a pad isn't known
/// before all directives are taken: a pad takes its place alone.
pub trait Bookings<'a> {
    ghost use Rattle.bean_replay.specs.Small.{IsSmallKept};
    ghost use Rattle.bean_replay.specs.Stand.{postings_of};
    ghost use Rattle.bean_replay.specs.Draft.{Draft};
    ghost use Rattle.bean_replay.specs.Draft as draft;
    ghost use Rattle.limits.specs.declared.counts.TheConstants.{MOST_POSTINGS};

    /// It has taken these bookings, and no others.
    ghost has_taken: { Self → List Draft → Type 0 };

    /// Takes a transaction that is kept.
    fn keep(&mut self, kept: &Kept<'a>) -> Result<(), AllocError>
        requires small { IsSmallKept kept.now }
        requires room { (ds : List Draft) × has_taken self.old ds
            × (length (postings_of ds) + length kept.now.postings ≤ MOST_POSTINGS) }
        ensures { (ds : List Draft) → has_taken self.old ds
            → OnOk result (has_taken self.new (ds ++ draft.Transaction kept.now ∷ [])) };

    /// Takes the place of a pad.
    fn pad(&mut self) -> Result<(), AllocError>
        ensures { (ds : List Draft) → has_taken self.old ds
            → OnOk result (has_taken self.new (ds ++ draft.Pad ∷ [])) };
}
