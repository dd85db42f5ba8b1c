//! Reductions whose selector names a cost. Where the inventory knows the lots of that cost, no
//! other is looked at.
ghost use Rattle.std.specs.Prelude.{◌≡◌, ◌≢◌, ◌<◌, ◌^◌, IfSome, List, ℕ, ℤ};
ghost use Rattle.std.specs.Int.RustNames.{unsigned_abs};
ghost use Rattle.bean_lots.specs.declared.lot.Position.{Position};
ghost use Rattle.bean_reductions.specs.After.{AreSmall, after};
ghost use Rattle.bean_reductions.specs.Candidate.{candidates};
ghost use Rattle.bean_reductions.specs.Reduction.{Reduces};

use super::after::candidates_after;
use super::front::Front;
use super::takes::reduce_candidates;
use super::{Method, Selector};
use crate::cause::LotCause;
use bean_base::Num;
use bean_inventories::Inventory;
use bean_inventories::inventory::Positions;
use bean_lots::Lot;
use refusals::Refusal;
use std::alloc::Global;

/// The positions among which all candidates stand, where the selector names a cost and the
/// inventory knows the lots of that cost.
pub(crate) fn positions_at_cost<'s, 'a>(
    inventory: &'s Inventory<'a>,
    selector: &Selector<'_>,
) -> Option<Positions<'a, 's>>
    ensures all { IfSome result (λ part. (want : ℤ) (taken : List Position)
        → candidates selector.now want (after part taken)
        ≡ candidates selector.now want (after inventory.now taken)) }
    ensures small { IfSome result (λ part. (n : ℕ) → AreSmall n inventory.now → AreSmall n part) }
{
    match &selector.cost {
        Some(cost) => inventory.positions_at(&selector.currency, cost),
        None => None,
    }
}

/// What a reduction takes of what is left of positions, each of which is looked at.
pub(crate) fn reduce_from<'a>(
    alloc: Global,
    positions: Positions<'a, '_>,
    taken: &Inventory<'_>,
    selector: &Selector<'_>,
    want: i128,
    method: Method,
) -> Result<Vec<(Lot<'a>, Num)>, Refusal<LotCause>>
    requires small { unsigned_abs want < 10 ^ 20 }
    requires chooses { method ≢ Method.None }
    requires held { AreSmall (2 ^ 125) positions }
    requires taken { AreSmall (2 ^ 125) taken.now }
    ensures { Reduces method (candidates selector.now want (after positions.entry taken.now)) want
        result }
{
    let found = candidates_after(alloc, positions, taken, selector, want, Front::All)?;
    reduce_candidates(alloc, found, want, method)
}
