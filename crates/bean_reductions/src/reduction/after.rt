//! Reductions from what is left of an inventory.
ghost use Rattle.std.specs.Prelude.{◌≡◌, ◌≢◌, ◌<◌, ◌^◌, ◌+ℤ◌, ◌++◌, OnOk, IfOk, List, ℕ, sum_by};
ghost use Rattle.std.specs.Prelude.{true};
ghost use Rattle.std.specs.Int.{w128};
ghost use Rattle.std.specs.Int.RustNames.{unsigned_abs, FitsSigned};
ghost use Rattle.bean_base.specs.Decimal.{scaled};
ghost use Rattle.bean_reductions.specs.After.{AreSmall, after, has_opposite};
ghost use Rattle.bean_reductions.specs.Candidate.{candidate_of, candidates};
ghost use Rattle.bean_inventories.specs.Days.{RiseInDays};
ghost use Rattle.bean_reductions.specs.Front.{IsFront};
ghost use Rattle.bean_lots.specs.Inventory.{count_of, long_lots, short_lots};
ghost use Rattle.bean_lots.specs.declared.lot.Position.{Position};
ghost use Rattle.bean_reductions.specs.Reduction.{Reduces};
ghost use Rattle.bean_reductions.specs.Rest.{HasAllLeft};
ghost use Rattle.bean_reductions.specs.Take.{units_of};

use super::by_cost::reduce_from;
use super::by_label::known_positions;
use super::front::{Front, front_for};
use super::last::reduce_last_in;
use super::queue::{Candidate, push_candidate, selects};
use super::takes::reduce_candidates;
use super::{Method, Selector};
use crate::cause::LotCause;
use bean_base::Num;
use bean_inventories::inventory::Positions;
use bean_inventories::{Inventory, Signs};
use bean_lots::{Key, Lot};
use refusals::Refusal;
use std::alloc::{AllocError, Global};

/// Adds the candidate that is left of what is held under a key, where one is, and tells its units.
pub(crate) fn push_left<'a>(
    found: &mut Vec<Candidate<'a>>,
    selector: &Selector<'_>,
    want: i128,
    key: &Key<'a>,
    count: i128,
    taken: &Inventory<'_>,
) -> Result<u128, AllocError>
    requires { FitsSigned w128 (count +ℤ count_of taken.now key.now) }
    ensures found { OnOk result (found.new.items ≡ found.old.items
        ++ candidate_of selector.now want key.now.currency key.now.lot
        (count +ℤ count_of taken.now key.now)) }
    ensures units { IfOk result (λ units. units
        ≡ sum_by units_of (candidate_of selector.now want key.now.currency key.now.lot
        (count +ℤ count_of taken.now key.now))) }
{
    if !selects(selector, key) {
        return Ok(0);
    }
    let left = count + taken.get(key);
    push_candidate(found, selector, want, key, left)
}

/// The candidates among what is left of positions, in order of entry; no more than the front that is
/// looked for.
pub(crate) fn candidates_after<'a>(
    alloc: Global,
    positions: Positions<'a, '_>,
    taken: &Inventory<'_>,
    selector: &Selector<'_>,
    want: i128,
    front: Front,
) -> Result<Vec<Candidate<'a>>, AllocError>
    requires held { AreSmall (2 ^ 125) positions }
    requires taken { AreSmall (2 ^ 125) taken.now }
    ensures { IfOk result (λ found. IsFront front (unsigned_abs want) found.items
        (candidates selector.now want (after positions.entry taken.now))) }
{
    let mut found = Vec::new(alloc);
    let mut units = 0u128;
    let mut rest = positions;
    while let Some((key, count)) = rest.next_held() {
        let more = push_left(&mut found, selector, want, key, count, taken)?;
        units = units.saturating_add(more);
        if front.is_reached(found.len(), units, want.unsigned_abs()) {
            return Ok(found);
        }
    }
    Ok(found)
}

/// Whether the last candidates that come to a want, with all others of their days, have those that
/// are taken.
fn is_back_enough(inventory: &Inventory<'_>, method: Method) -> bool
    ensures { result ≡ true → (method ≡ Method.Lifo) × RiseInDays inventory.now }
{
    method == Method::Lifo && inventory.rises_in_days()
}

/// What a reduction by `units` takes of the lots that are left of an inventory by what is in
/// `taken`: the takes in their order, with the sign of `units`. The rest, which alone is looked at,
/// has all that is left.
pub fn reduce_after<'a>(
    alloc: Global,
    inventory: &Inventory<'a>,
    rest: &Positions<'a, '_>,
    taken: &Inventory<'_>,
    selector: &Selector<'_>,
    units: Num,
    method: Method,
) -> Result<Vec<(Lot<'a>, Num)>, Refusal<LotCause>>
    requires chooses { method ≢ Method.None }
    requires held { AreSmall (2 ^ 125) inventory.now }
    requires rest { HasAllLeft taken.now rest.now inventory.now }
    requires taken { AreSmall (2 ^ 125) taken.now }
    ensures { let want = scaled units.count units.places 8 in
        Reduces method (candidates selector.now want (after inventory.now taken.now)) want result }
{
    let want = units.scaled(8);
    if let Some(part) = known_positions(inventory, selector) {
        return reduce_from(alloc, part, taken, selector, want, method);
    }
    if is_back_enough(inventory, method) {
        return reduce_last_in(alloc, rest, taken, selector, want);
    }
    let part = rest.about(selector.day);
    let front = front_for(inventory, method);
    let found = candidates_after(alloc, part, taken, selector, want, front)?;
    reduce_candidates(alloc, found, want, method)
}

/// Whether some lot of a currency has the sign opposite to that of the units, where these are the
/// signs of its lots.
pub fn has_opposite(signs: Signs, units: Num) -> bool
    ensures { (c : List ℕ) (es : List Position) → signs.long ≡ long_lots c es
        → signs.short ≡ short_lots c es
        → result ≡ has_opposite c (scaled units.count units.places 8) es }
{
    signs.against(units.scaled(8)) > 0
}
