//! What pads and balances see of booked postings.
ghost use Rattle.std.specs.Prelude.{◌≡◌, ◌+◌, ◌≤◌, ◌^◌, ◌++◌, List, OnOk, length};
ghost use Rattle.std.specs.List.{AllByRecursion};
ghost use Rattle.bean_replay.specs.Stand as spec;
ghost use Rattle.bean_replay.specs.Watched as rule;
ghost use Rattle.bean_replay.specs.Watched.{IsWatched, seen_of};
ghost use Rattle.bean_pad.specs.Following.{Follows, IsBounded, steps_in};
ghost use Rattle.bean_pad.specs.declared.step.Step.{Step};

use crate::placed::kind_of;
use bean_directives::{ApartDirective, DirectiveKind};
use bean_holdings::Posted;
use bean_loaded::Placed;
use bean_pad::Padder;
use std::alloc::AllocError;

/// Whether a directive sees the postings that are booked before it.
fn is_watching(kind: &DirectiveKind<'_>) -> bool
    ensures { result ≡ rule.is_watching kind.now }
{
    matches!(kind, DirectiveKind::Pad(_) | DirectiveKind::Balance(_))
}

/// Whether any directive is a pad or a balance.
pub(crate) fn are_watched(directives: &[Placed<ApartDirective<'_>>]) -> bool
    ensures { AllByRecursion (IsWatched result) directives.now }
{
    for directive in directives {
        if is_watching(kind_of(directive)) {
            return true;
        }
    }
    false
}

/// Shows a padder booked postings.
fn show_postings<'a>(padder: &mut Padder<'a>, posted: &[Posted<'a>]) -> Result<(), AllocError>
    requires near { IsBounded padder.old }
    requires few { steps_in padder.old + length posted.now ≤ 2 ^ 40 }
    ensures follows { OnOk result ((past : List Step) → Follows past padder.old
        → Follows (spec.steps_of_postings posted.now ++ past) padder.new) }
    ensures near { OnOk result (IsBounded padder.new) }
    ensures steps { OnOk result
        (steps_in padder.new ≡ steps_in padder.old + length posted.now) }
{
    for one in posted {
        padder.post(&one.account, &one.units)?;
    }
    Ok(())
}

/// Shows a padder booked postings, where they are watched.
pub(crate) fn show_watched<'a>(
    watched: bool,
    padder: &mut Padder<'a>,
    posted: &[Posted<'a>],
) -> Result<(), AllocError>
    requires near { IsBounded padder.old }
    requires few { steps_in padder.old + length posted.now ≤ 2 ^ 40 }
    ensures follows { OnOk result ((past : List Step) → Follows past padder.old
        → Follows (seen_of watched posted.now ++ past) padder.new) }
    ensures near { OnOk result (IsBounded padder.new) }
    ensures steps { OnOk result
        (steps_in padder.new ≤ steps_in padder.old + length posted.now) }
{
    if !watched {
        return Ok(());
    }
    show_postings(padder, posted)
}
