//! One directive after the other, with what is booked of it handed over at once.
ghost use Rattle.std.specs.Prelude.{◌≡◌, ◌≢◌, ◌≤◌, ◌^◌, ◌∷◌, ◌++◌, List, ℕ, OnOk, length};
ghost use Rattle.std.specs.Prelude as prelude;
ghost use Rattle.std.specs.List.{AllByRecursion};
ghost use Rattle.limits.specs.declared.counts.TheConstants.{MOST_POSTINGS};
ghost use Rattle.bean_directives.specs.declared.directive.Directive as directives;
ghost use Rattle.bean_directives.specs.declared.directive.DirectiveKind.TheVariants as kinds;
ghost use Rattle.bean_directives.specs.declared.transaction.Transaction as transactions;
ghost use Rattle.bean_loaded.specs.Limited.{IsSmall};
ghost use Rattle.bean_loaded.specs.declared.placed.Placed as places;
ghost use Rattle.bean_reductions.specs.declared.reduction.Method.{Method};
ghost use Rattle.bean_replay.specs.Booker.{IsLed, IsStanding, IsWritten, Stands, Wherever, asks};
ghost use Rattle.bean_replay.specs.Booker.{draft_of, drafts_in, pad_in};
ghost use Rattle.bean_replay.specs.Draft as draft;
ghost use Rattle.bean_replay.specs.Small.{IsSmallDraft};
ghost use Rattle.bean_replay.specs.Stand as spec;
ghost use Rattle.bean_replay.specs.Stand.{IsFull, IsStepBy, Stand, postings_of};
ghost use Rattle.bean_replay.specs.Watched.{IsWatched};

use crate::booker::Booker;
use crate::booking::Kept;
use crate::bookings::Bookings;
use crate::cause::BookCause;
use crate::written::Written;
use bean_base::{List, Place};
use bean_directives::{ApartDirective, DirectiveKind};
use bean_holdings::Posted;
use bean_loaded::Placed;
use refusals::Refusal;
use std::alloc::AllocError;

/// Hands over a transaction with the postings that it is booked as, if it is kept, and gives it back.
fn hand_over<'a, S: Bookings<'a>>(
    booker: &mut Booker<'a>,
    to: &mut S,
    written: Written<'a>,
    postings: Option<List<Posted<'a>>>,
) -> Result<(), AllocError>
    requires small { AllByRecursion IsSmallDraft (drafts_in (draft_of written postings)) }
    requires room { (ds : List draft.Draft) × S.has_taken to.old ds
        × (length (postings_of (ds ++ drafts_in (draft_of written postings))) ≤ MOST_POSTINGS) }
    ensures taken { (ds : List draft.Draft) → S.has_taken to.old ds → OnOk result
        (S.has_taken to.new (ds ++ drafts_in (draft_of written.entry postings.entry))) }
    ensures standing { Wherever booker.old (λ m past st. IsStanding m past st booker.new) }
    ensures asks { asks booker.new ≡ asks booker.old }
{
    match postings {
        Some(postings) => {
            let kept = Kept { written, postings };
            to.keep(&kept)?;
            booker.reuse(kept);
            Ok(())
        }
        None => Ok(()),
    }
}

/// Books a transaction, and hands it over if it is kept.
fn take_transaction<'a, S: Bookings<'a>>(
    booker: &mut Booker<'a>,
    to: &mut S,
    written: Written<'a>,
) -> Result<(), Refusal<BookCause>>
    requires stands { (m : List ℕ → Method) × (past : List (places.Placed directives.Directive))
        × (st : Stand) × IsLed S.Bookings m past st booker.old to.old
        × (d : places.Placed directives.Directive) × IsWritten d written
        × AllByRecursion IsSmall (d ∷ past) × (length past ≤ 2 ^ 39) }
    ensures led { (m : List ℕ → Method) (past : List (places.Placed directives.Directive))
        (st : Stand) → IsLed S.Bookings m past st booker.old to.old
        → (d : places.Placed directives.Directive) → IsWritten d written.entry
        → OnOk result ((new : Stand) × IsLed S.Bookings m (d ∷ past) new booker.new to.new) }
    ensures asks { OnOk result (asks booker.new ≡ asks booker.old) }
    ensures full { result ≡ prelude.Err (Refusal.Refused BookCause.TooManyPostings)
        → (m : List ℕ → Method) (past : List (places.Placed directives.Directive)) (st : Stand)
        → IsLed S.Bookings m past st booker.old to.old
        → (d : places.Placed directives.Directive) → IsWritten d written.entry → (new : Stand)
        → IsStepBy m past st d d.item.kind new → IsFull new }
{
    match booker.book(&written) {
        Ok(postings) => {
            hand_over(booker, to, written, postings)?;
            Ok(())
        }
        Err(fault) => Err(fault),
    }
}

/// Hands over the place of a directive, if it is a pad.
fn hand_pad<'a, S: Bookings<'a>>(to: &mut S, kind: &DirectiveKind<'a>) -> Result<(), AllocError>
    ensures { (ds : List draft.Draft) → S.has_taken to.old ds
        → OnOk result (S.has_taken to.new (ds ++ drafts_in (pad_in kind.now))) }
{
    match kind {
        DirectiveKind::Pad(_) => to.pad(),
        _ => Ok(()),
    }
}

/// The place of a directive.
fn place_of(placed: &Placed<ApartDirective<'_>>) -> Place
    ensures { result ≡ spec.place_of placed.now }
{
    Place {
        file: placed.file as usize,
        line: placed.item.get().line as usize,
    }
}

/// Takes a directive that is no transaction, and hands over its place if it is a pad.
fn take_other<'a, S: Bookings<'a>>(
    booker: &mut Booker<'a>,
    to: &mut S,
    placed: &Placed<ApartDirective<'a>>,
) -> Result<(), Refusal<BookCause>>
    requires stands { Stands booker.old }
    requires watched { IsWatched booker.old.watched placed.now }
    requires other { (t : transactions.Transaction) → placed.now.item.kind ≢ kinds.Transaction t }
    ensures led { (m : List ℕ → Method) (past : List (places.Placed directives.Directive))
        (st : Stand) → IsLed S.Bookings m past st booker.old to.old
        → OnOk result ((new : Stand)
        × IsLed S.Bookings m (placed.now ∷ past) new booker.new to.new) }
    ensures asks { OnOk result (asks booker.new ≡ asks booker.old) }
    ensures full { result ≢ prelude.Err (Refusal.Refused BookCause.TooManyPostings) }
{
    let directive = placed.item.get();
    booker.take_other(directive.day, place_of(placed), &directive.kind)?;
    hand_pad(to, &directive.kind)?;
    Ok(())
}

/// Takes the next directive, and hands over what is booked of it.
pub(crate) fn take_into<'a, S: Bookings<'a>>(
    booker: &mut Booker<'a>,
    to: &mut S,
    placed: Placed<ApartDirective<'a>>,
) -> Result<(), Refusal<BookCause>>
    requires stands { (m : List ℕ → Method) × (past : List (places.Placed directives.Directive))
        × (st : Stand) × IsLed S.Bookings m past st booker.old to.old
        × AllByRecursion IsSmall (placed ∷ past) × (length past ≤ 2 ^ 39) }
    requires watched { IsWatched booker.old.watched placed }
    ensures led { (m : List ℕ → Method) (past : List (places.Placed directives.Directive))
        (st : Stand) → IsLed S.Bookings m past st booker.old to.old
        → OnOk result ((new : Stand)
        × IsLed S.Bookings m (placed.entry ∷ past) new booker.new to.new) }
    ensures asks { OnOk result (asks booker.new ≡ asks booker.old) }
    ensures full { result ≡ prelude.Err (Refusal.Refused BookCause.TooManyPostings)
        → (m : List ℕ → Method) (past : List (places.Placed directives.Directive)) (st : Stand)
        → IsLed S.Bookings m past st booker.old to.old → (new : Stand)
        → IsStepBy m past st placed.entry placed.entry.item.kind new → IsFull new }
{
    match Written::of(placed) {
        Ok(written) => take_transaction(booker, to, written),
        Err(other) => take_other(booker, to, &other),
    }
}
