//! Reductions under `Lifo`, where lots stand in the order of their days: the last are looked at
//! alone. Those of one day are taken in the order of entry, so of the last day the first are enough
//! where they come to the want.
ghost use Rattle.std.specs.Prelude.{◌≡◌, ◌-◌, ◌<◌, ◌^◌, ◌+ℤ◌, [], IfOk, IfSome, IfNone, length};
ghost use Rattle.std.specs.Prelude.{None, reverse, slice_get};
ghost use Rattle.std.specs.Int.{w128};
ghost use Rattle.std.specs.Int.RustNames.{unsigned_abs, FitsSigned};
ghost use Rattle.bean_base.specs.Day.{number};
ghost use Rattle.bean_lots.specs.Inventory.{count_of};
ghost use Rattle.bean_inventories.specs.Days.{RiseInDays};
ghost use Rattle.bean_reductions.specs.After.{AreSmall, after};
ghost use Rattle.bean_reductions.specs.Back.{AreBy, IsBack, IsFirst, IsOfDay, is_earlier};
ghost use Rattle.bean_reductions.specs.Candidate.{candidate_of, candidates};
ghost use Rattle.bean_reductions.specs.Reduction.{Reduces};

use super::after::{candidates_after, push_left};
use super::front::Front;
use super::queue::{Candidate, is_opposite, selects, shortfall};
use super::takes::reduce_candidates;
use super::{Method, Selector};
use crate::cause::LotCause;
use bean_base::{Day, Num};
use bean_inventories::Inventory;
use bean_inventories::inventory::Positions;
use bean_lots::{Key, Lot};
use refusals::Refusal;
use std::alloc::{AllocError, Global};

/// Whether a key is that of a lot of an earlier day than the candidate that was found last.
fn is_earlier(key: &Key<'_>, found: &[Candidate<'_>]) -> bool
    ensures { result ≡ is_earlier key.now.lot (slice_get found.now (length found.now - 1)) }
{
    let Some(lot) = &key.lot else {
        return false;
    };
    match found.last() {
        Some(last) => lot.day.number() < last.day_number(),
        None => false,
    }
}

/// The last candidates that come to the want among what is left of positions, and all others of
/// their days, from the end.
fn candidates_from_end<'a>(
    alloc: Global,
    positions: Positions<'a, '_>,
    taken: &Inventory<'_>,
    selector: &Selector<'_>,
    want: i128,
) -> Result<Vec<Candidate<'a>>, AllocError>
    requires held { AreSmall (2 ^ 125) positions }
    requires taken { AreSmall (2 ^ 125) taken.now }
    requires days { RiseInDays positions }
    ensures { IfOk result (λ found. IsBack (unsigned_abs want) (reverse found.items)
        (candidates selector.now want (after positions.entry taken.now))) }
{
    let mut found = Vec::new(alloc);
    let mut missing = want.unsigned_abs();
    let mut rest = positions;
    while let Some((key, count)) = rest.next_back_held() {
        if missing == 0 && is_earlier(key, &found) {
            return Ok(found);
        }
        let units = push_left(&mut found, selector, want, key, count, taken)?;
        missing = missing.saturating_sub(units);
    }
    Ok(found)
}

/// What a reduction takes of what is left of positions under `Lifo`.
fn reduce_last<'a>(
    alloc: Global,
    positions: Positions<'a, '_>,
    taken: &Inventory<'_>,
    selector: &Selector<'_>,
    want: i128,
) -> Result<Vec<(Lot<'a>, Num)>, Refusal<LotCause>>
    requires small { unsigned_abs want < 10 ^ 20 }
    requires held { AreSmall (2 ^ 125) positions }
    requires taken { AreSmall (2 ^ 125) taken.now }
    requires days { RiseInDays positions }
    ensures { Reduces Method.Lifo (candidates selector.now want (after positions.entry taken.now))
        want result }
{
    let mut found = candidates_from_end(alloc, positions, taken, selector, want)?;
    found.reverse();
    reduce_candidates(alloc, found, want, Method::Lifo)
}

/// The day of the candidate that is left of what is held under a key, where one is.
fn day_left(
    selector: &Selector<'_>,
    want: i128,
    key: &Key<'_>,
    count: i128,
    taken: &Inventory<'_>,
) -> Option<Day>
    requires { FitsSigned w128 (count +ℤ count_of taken.now key.now) }
    ensures some { IfSome result (λ day. IsOfDay day key.now.lot) }
    ensures none { IfNone result (candidate_of selector.now want key.now.currency key.now.lot
        (count +ℤ count_of taken.now key.now) ≡ []) }
{
    let Some(lot) = &key.lot else {
        return None;
    };
    if !selects(selector, key) {
        return None;
    }
    if !is_opposite(want, count + taken.get(key)) {
        return None;
    }
    Some(lot.day)
}

/// The day of the last candidate among what is left of positions.
fn last_day(
    positions: Positions<'_, '_>,
    taken: &Inventory<'_>,
    selector: &Selector<'_>,
    want: i128,
) -> Option<Day>
    requires held { AreSmall (2 ^ 125) positions }
    requires taken { AreSmall (2 ^ 125) taken.now }
    requires days { RiseInDays positions }
    ensures { IfSome result (λ day. AreBy (number day)
        (candidates selector.now want (after positions.entry taken.now))) }
{
    let mut rest = positions;
    while let Some((key, count)) = rest.next_back_held() {
        match day_left(selector, want, key, count, taken) {
            Some(day) => return Some(day),
            None => {}
        }
    }
    None
}

/// The first candidates of a day, which is the last that has any, where they come to the want.
fn first_on<'a>(
    alloc: Global,
    positions: &Positions<'a, '_>,
    taken: &Inventory<'_>,
    selector: &Selector<'_>,
    want: i128,
    day: Day,
) -> Result<Option<Vec<Candidate<'a>>>, AllocError>
    requires held { AreSmall (2 ^ 125) positions.now }
    requires taken { AreSmall (2 ^ 125) taken.now }
    requires days { RiseInDays positions.now }
    requires any { selector.now.day ≡ None }
    requires last { AreBy (number day) (candidates selector.now want (after positions.now taken.now)) }
    ensures { IfOk result (λ first. IfSome first (λ found. IsFirst (unsigned_abs want) found.items
        (candidates selector.now want (after positions.now taken.now)))) }
{
    let on_day = selector.on(day);
    let part = positions.about(Some(day));
    let found = candidates_after(alloc, part, taken, &on_day, want, Front::ToWant)?;
    if shortfall(&found, want.unsigned_abs()) > 0 {
        return Ok(None);
    }
    Ok(Some(found))
}

/// The first candidates of the last day that has any, where they come to the want and the selector
/// gives no day.
fn first_of_last_day<'a>(
    alloc: Global,
    positions: &Positions<'a, '_>,
    taken: &Inventory<'_>,
    selector: &Selector<'_>,
    want: i128,
) -> Result<Option<Vec<Candidate<'a>>>, AllocError>
    requires held { AreSmall (2 ^ 125) positions.now }
    requires taken { AreSmall (2 ^ 125) taken.now }
    requires days { RiseInDays positions.now }
    ensures { IfOk result (λ first. IfSome first (λ found. IsFirst (unsigned_abs want) found.items
        (candidates selector.now want (after positions.now taken.now)))) }
{
    if selector.day.is_some() {
        return Ok(None);
    }
    match last_day(positions.lend(), taken, selector, want) {
        Some(day) => first_on(alloc, positions, taken, selector, want, day),
        None => Ok(None),
    }
}

/// What a reduction takes of what is left of positions under `Lifo`, where the last day may do.
pub(crate) fn reduce_last_in<'a>(
    alloc: Global,
    positions: &Positions<'a, '_>,
    taken: &Inventory<'_>,
    selector: &Selector<'_>,
    want: i128,
) -> Result<Vec<(Lot<'a>, Num)>, Refusal<LotCause>>
    requires small { unsigned_abs want < 10 ^ 20 }
    requires held { AreSmall (2 ^ 125) positions.now }
    requires taken { AreSmall (2 ^ 125) taken.now }
    requires days { RiseInDays positions.now }
    ensures { Reduces Method.Lifo (candidates selector.now want (after positions.now taken.now))
        want result }
{
    match first_of_last_day(alloc, positions, taken, selector, want)? {
        Some(found) => reduce_candidates(alloc, found, want, Method::Lifo),
        None => {
            let part = positions.about(selector.day);
            reduce_last(alloc, part, taken, selector, want)
        }
    }
}
