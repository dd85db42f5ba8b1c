//! What a posting meets in its account.
ghost use Rattle.std.specs.Prelude.{◌≡◌};

use bean_holdings::{LotsLeft, Rests};
use bean_inventories::Inventory;
use bean_reductions::Method;

/// An account as a posting meets it: what it held before the transaction, what the transaction took
/// of that so far, which lots it leaves and where they stand, and how the account chooses among its
/// lots.
#[derive(Clone, Copy)]
pub(crate) struct Stock<'s, 'a> {
    pub method: Method,
    pub held: &'s Inventory<'a>,
    pub taken: &'s Inventory<'a>,
    pub left: &'s LotsLeft<'a>,
    pub rests: &'s Rests<'a, 's>,
}

impl<'s, 'a> Stock<'s, 'a> {
    /// An account with nothing in it, of which `nothing` is the inventory.
    pub fn of_nothing(
        nothing: &'s Inventory<'a>,
        left: &'s LotsLeft<'a>,
        rests: &'s Rests<'a, 's>,
    ) -> Stock<'s, 'a>
        ensures held { result.held.now ≡ nothing.now }
        ensures taken { result.taken.now ≡ nothing.now }
    {
        Stock {
            method: Method::None,
            held: nothing,
            taken: nothing,
            left,
            rests,
        }
    }
}
