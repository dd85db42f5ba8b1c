//! On which day the lots of a cost stand.
ghost use Rattle.std.specs.Prelude.{◌≡◌, OnOk, Some, None};
ghost use Rattle.bean_inventories.specs.Costs.{IsAsTold, day_at};
ghost use Rattle.bean_inventories.specs.Days.{has_day};
ghost use Rattle.bean_lots.specs.declared.lot.Lot.{Lot as LotValue};

use bean_base::Day;
use bean_lots::Lot;
use indexmap::IndexMap;
use std::alloc::{AllocError, Global};

/// On which day the lots of a cost stand, none of which has a label, or that they don't stand so.
#[derive(Clone, Copy, Drop, PartialEq, Eq)]
pub(crate) enum LotDay {
    On(Day),
    Several,
}

/// Whether a lot is of a day.
fn is_of(day: Day, lot: &Lot<'_>) -> bool
    ensures { result ≡ has_day (Some day) lot.now }
{
    day == lot.day
}

/// What is told of a cost, the lots of which were of one day, once another without a label comes.
fn told_on(day: Day, lot: &Lot<'_>) -> LotDay
    requires { lot.now.label ≡ None }
    ensures own { IsAsTold (Some result) lot.now }
    ensures others { (l : LotValue) → (l.day ≡ day) × (l.label ≡ None)
        → IsAsTold (Some result) l }
{
    if is_of(day, lot) {
        LotDay::On(day)
    } else {
        LotDay::Several
    }
}

/// What is told of a cost once a lot comes that has it.
fn told_with(told: Option<LotDay>, lot: &Lot<'_>) -> LotDay
    ensures own { IsAsTold (Some result) lot.now }
    ensures others { (l : LotValue) → IsAsTold told l → IsAsTold (Some result) l }
{
    if lot.label.is_some() {
        return LotDay::Several;
    }
    match told {
        None => LotDay::On(lot.day),
        Some(LotDay::On(day)) => told_on(day, lot),
        Some(LotDay::Several) => LotDay::Several,
    }
}

/// What is told of each cost, by its count, whatever its currency.
#[derive(Drop)]
pub(crate) struct CostDays {
    by_count: IndexMap<i128, LotDay>,
}

impl CostDays {
    pub(crate) fn new(alloc: Global) -> CostDays {
        CostDays {
            by_count: IndexMap::new(alloc),
        }
    }

    /// What is told of the costs of a count. Where it is nothing, no slot is that of such a lot.
    pub(crate) fn day_at(&self, count: i128) -> Option<LotDay>
        ensures { result ≡ day_at self.now count }
    {
        self.by_count.get(&count).copied()
    }

    /// Of how many counts something is told.
    pub(crate) fn len(&self) -> usize {
        self.by_count.len()
    }

    /// Notes a lot that comes.
    pub(crate) fn note(&mut self, lot: &Lot<'_>) -> Result<(), AllocError>
        ensures own { OnOk result (IsAsTold (day_at self.new lot.now.cost.count) lot.now) }
        ensures others { (l : LotValue) → IsAsTold (day_at self.old l.cost.count) l
            → IsAsTold (day_at self.new l.cost.count) l }
    {
        let told = told_with(self.day_at(lot.cost.count), lot);
        self.by_count.insert(lot.cost.count, told)?;
        Ok(())
    }
}
