//! Reductions whose selector names a label. Where the inventory knows the lots of that label, no
//! other is looked at.
ghost use Rattle.std.specs.Prelude.{◌≡◌, IfSome, List, ℕ, ℤ};
ghost use Rattle.bean_lots.specs.declared.lot.Position.{Position};
ghost use Rattle.bean_reductions.specs.After.{AreSmall, after};
ghost use Rattle.bean_reductions.specs.Candidate.{candidates};

use super::Selector;
use super::by_cost::positions_at_cost;
use bean_inventories::Inventory;
use bean_inventories::inventory::Positions;

/// The positions among which all candidates stand, where the selector names a label and the
/// inventory knows the lots of that label.
fn positions_labelled<'s, 'a>(
    inventory: &'s Inventory<'a>,
    selector: &Selector<'_>,
) -> Option<Positions<'a, 's>>
    ensures all { IfSome result (λ part. (want : ℤ) (taken : List Position)
        → candidates selector.now want (after part taken)
        ≡ candidates selector.now want (after inventory.now taken)) }
    ensures small { IfSome result (λ part. (n : ℕ) → AreSmall n inventory.now → AreSmall n part) }
{
    match &selector.label {
        Some(label) => inventory.positions_labelled(&selector.currency, label),
        None => None,
    }
}

/// The positions among which all candidates stand, where the inventory knows the lots of the label
/// or those of the cost that the selector names.
pub(crate) fn known_positions<'s, 'a>(
    inventory: &'s Inventory<'a>,
    selector: &Selector<'_>,
) -> Option<Positions<'a, 's>>
    ensures all { IfSome result (λ part. (want : ℤ) (taken : List Position)
        → candidates selector.now want (after part taken)
        ≡ candidates selector.now want (after inventory.now taken)) }
    ensures small { IfSome result (λ part. (n : ℕ) → AreSmall n inventory.now → AreSmall n part) }
{
    match positions_labelled(inventory, selector) {
        Some(part) => Some(part),
        None => positions_at_cost(inventory, selector),
    }
}
