//! Whether lots came in the order of their days.
ghost use Rattle.std.specs.Prelude.{◌≡◌, ◌++◌, ◌∷◌, [], List, ℤ};
ghost use Rattle.bean_inventories.specs.Kept.{AreDays};
ghost use Rattle.bean_lots.specs.declared.lot.Key.{Key as KeyValue};

use bean_lots::Key;

/// Whether the days of lots never went down, and where they didn't, the latest.
#[derive(Clone, Copy, Drop)]
pub(crate) struct Days {
    pub latest: i32,
    pub in_order: bool,
}

impl Days {
    /// No lots.
    pub(crate) fn new() -> Days
        ensures { AreDays result [] }
    {
        Days {
            latest: i32::MIN,
            in_order: true,
        }
    }

    /// A key comes behind all others.
    pub(crate) fn with(self, key: &Key<'_>) -> Days
        ensures { (es : List (KeyValue × ℤ)) (n : ℤ) → AreDays self es
            → AreDays result (es ++ (key.now, n) ∷ []) }
    {
        let Some(lot) = &key.lot else {
            return self;
        };
        let day = lot.day.number();
        Days {
            latest: day,
            in_order: self.in_order && self.latest <= day,
        }
    }
}
