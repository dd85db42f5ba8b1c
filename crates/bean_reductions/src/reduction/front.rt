//! How many of the first candidates settle what is taken, whatever others there are.
ghost use Rattle.std.specs.Prelude.{◌≡◌, true};
ghost use Rattle.bean_reductions.specs.Front.{IsFrontFor, IsReached};

use super::Method;
use bean_inventories::Inventory;

/// How many of the first candidates are looked for.
#[derive(Clone, Copy, Drop)]
pub(crate) enum Front {
    /// All of them.
    All,
    /// So many as come to the want.
    ToWant,
    /// So many as come to more than the want, and not one alone: under `Strict` they are ambiguous
    /// then, and stay so with any others.
    PastWant,
}

impl Front {
    /// Whether so many candidates, of so many units, are enough.
    pub(crate) fn is_reached(self, lots: usize, units: u128, want: u128) -> bool
        ensures { result ≡ true → IsReached self want lots units }
    {
        match self {
            Front::All => false,
            Front::ToWant => want <= units,
            Front::PastWant => lots > 1 && want < units,
        }
    }
}

/// The front that settles what is taken of what is left of an inventory.
pub(crate) fn front_for(inventory: &Inventory<'_>, method: Method) -> Front
    ensures { IsFrontFor result method inventory.now }
{
    match method {
        Method::Strict => Front::PastWant,
        Method::Fifo if inventory.rises_in_days() => Front::ToWant,
        _ => Front::All,
    }
}
