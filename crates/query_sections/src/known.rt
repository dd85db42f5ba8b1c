//! What is known of texts that were searched already.
//!
//! A ledger has few accounts and many postings, so most texts that a filter looks through are texts
//! that it has looked through before.
ghost use Rattle.std.specs.Prelude.{◌≡◌, ◌<◌, Some, IfOk, IfSome, slice_set};
ghost use Rattle.plain_machine.specs.SectionRun.{slot_at};
ghost use Rattle.query_sections.specs.Known.{IsNothing, is_of};
ghost use Rattle.query_sections.specs.declared.known.TheConstants.{PLACES};

use bean_base::Slice;
use byte_runs::end_of;
use std::alloc::{AllocError, Global};

/// Of so many texts it is known at most; each has one place.
pub(crate) const PLACES: usize = 4096;

/// Whether a text has the pattern of a number in the pool.
#[derive(Drop)]
pub(crate) struct Known<'r> {
    pub(crate) pattern: u16,
    pub(crate) text: Slice<'r>,
    pub(crate) is_found: bool,
}

/// So many places, with nothing known yet.
#[tactic(auto, using(crate::proofs::KnownFacts::nothing_known))]
pub(crate) fn nothing_known<'r>(
    alloc: Global,
    places: usize,
) -> Result<Vec<Option<Known<'r>>>, AllocError>
    ensures { IfOk result (λ known. IsNothing known.items) }
{
    let mut known = Vec::with_capacity(alloc, places)?;
    for _ in 0..places {
        known.push(None)?;
    }
    Ok(known)
}

/// The place of a text that is searched for a pattern.
#[inline(always)]
pub(crate) fn place_of(pattern: u16, text: &str) -> usize
    ensures { result < PLACES }
{
    end_of(text, pattern as usize, PLACES)
}

/// What is known of a text, where it is this one of which it is known.
#[inline(always)]
fn known_of(one: &Known<'_>, pattern: u16, text: &Slice<'_>) -> Option<bool>
    ensures { IfSome result (λ found. one.now ≡ is_of pattern text.now found) }
{
    if one.pattern == pattern && one.text == *text {
        Some(one.is_found)
    } else {
        None
    }
}

/// What is known of a text at a place, if it is this text that stands there.
#[inline(always)]
pub(crate) fn known_at(
    known: &[Option<Known<'_>>],
    place: usize,
    pattern: u16,
    text: &Slice<'_>,
) -> Option<bool>
    ensures { IfSome result (λ found. slot_at known.now place
        ≡ Some (is_of pattern text.now found)) }
{
    match known.get(place) {
        Some(Some(one)) => known_of(one, pattern, text),
        _ => None,
    }
}

/// What is known of a text, in place of what stood there.
#[inline(always)]
pub(crate) fn note<'r>(known: &mut [Option<Known<'r>>], place: usize, one: Known<'r>)
    ensures { known.new ≡ slice_set known.old place (Some one.entry) }
{
    if place < known.len() {
        known[place] = Some(one);
    }
}
