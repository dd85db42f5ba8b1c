//! What holds of keys and of additions.
ghost use Rattle.std.specs.Prelude.{◌≡◌, ◌+ℤ◌, ◌↔◌, IsTrue, List, if◌then◌else◌, pos, ℤ};
ghost use Rattle.bean_lots.specs.Inventory.{IsInventory, added, count_of};
ghost use Rattle.bean_lots.specs.Lot.{same_key};
ghost use Rattle.bean_lots.specs.declared.lot.Key.{Key};
ghost use Rattle.bean_lots.specs.declared.lot.Position.{Position};

/// Keys are compared by their values.
pub fn same_keys_are_equal()
    ensures { (a b : Key) → IsTrue (same_key a b) ↔ (a ≡ b) }
{}

/// An addition leaves no count of 0 and no key twice.
pub fn add_keeps_an_inventory()
    ensures { (es : List Position) (k : Key) (n : ℤ) → IsInventory es → IsInventory (added es k n) }
{}

/// An addition under a key adds to its count, and to no other.
pub fn add_is_pointwise()
    ensures { (es : List Position) (k q : Key) (n : ℤ) → IsInventory es → count_of (added es k n) q
        ≡ count_of es q +ℤ (if same_key q k then n else pos 0) }
{}
