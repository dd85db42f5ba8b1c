//! What is told of lots by their costs and by their labels. Where lots are many, one whose cost or
//! label is named is found by this without a look at the others.
//!
//! What is told is of all slots, and may be of lots that are gone: so nothing is to be done where a
//! lot goes.
ghost use Rattle.std.specs.Prelude.{OnOk, IfOk, Option};
ghost use Rattle.bean_inventories.specs.Table.{AreNoted, AreTold, IsLotNoted, IsNoted, IsTold};
ghost use Rattle.bean_lots.specs.declared.lot.Lot.{Lot as LotValue};

use super::costs::CostDays;
use super::labels::LabelLots;
use bean_lots::{Key, Lot};
use key_counts::Run;
use std::alloc::{AllocError, Global};

/// So few slots are looked at one by one, with no table beside them.
const FEW: usize = 32;

/// What is told of each cost and of each label.
#[derive(Drop)]
pub(crate) struct LotTable<'a> {
    pub costs: CostDays,
    pub labels: LabelLots<'a>,
}

impl<'a> LotTable<'a> {
    fn new(alloc: Global) -> LotTable<'a> {
        LotTable {
            costs: CostDays::new(alloc),
            labels: LabelLots::new(alloc),
        }
    }

    /// Of how many costs something is told, or of how many labels, where these are more.
    fn len(&self) -> usize {
        self.costs.len().max(self.labels.len())
    }

    /// Notes a lot that comes.
    fn note_lot(&mut self, lot: &Lot<'a>) -> Result<(), AllocError>
        ensures own { OnOk result (IsLotNoted self.new lot.now) }
        ensures others { (l : LotValue) → IsLotNoted self.old l → IsLotNoted self.new l }
    {
        self.costs.note(lot)?;
        self.labels.note(lot)
    }

    /// Notes the lot of a key that comes.
    fn note(&mut self, key: &Key<'a>) -> Result<(), AllocError>
        ensures own { OnOk result (IsNoted self.new key.now.lot) }
        ensures others { (l : Option LotValue) → IsNoted self.old l → IsNoted self.new l }
    {
        match &key.lot {
            Some(lot) => self.note_lot(lot),
            None => Ok(()),
        }
    }
}

/// What slots tell.
fn told_by<'a>(alloc: Global, slots: &Run<'_, Key<'a>>) -> Result<LotTable<'a>, AllocError>
    ensures { IfOk result (λ table. AreNoted table slots.now) }
{
    let mut table = LotTable::new(alloc);
    for index in 0..slots.len() {
        let (key, _) = slots.slot_at(index);
        table.note(key)?;
    }
    Ok(table)
}

/// The table of some slots: the one that is known, but where most of what it tells is of lots that
/// are gone. Without one, another is made where slots are many.
fn table_of<'a>(
    alloc: Global,
    known: Option<Box<LotTable<'a>>>,
    slots: &Run<'_, Key<'a>>,
) -> Result<Option<Box<LotTable<'a>>>, AllocError>
    requires { AreTold known slots.now }
    ensures { IfOk result (λ table. AreTold table slots.now) }
{
    if let Some(table) = known {
        if table.len() / 2 <= slots.len() {
            return Ok(Some(table));
        }
    }
    if slots.len() < FEW {
        return Ok(None);
    }
    Ok(Some(Box::new(alloc, told_by(alloc, slots)?)?))
}

/// The same table once a key comes.
fn noted<'a>(
    known: Box<LotTable<'a>>,
    key: &Key<'a>,
) -> Result<Option<Box<LotTable<'a>>>, AllocError>
    ensures own { IfOk result (λ table. IsTold table key.now.lot) }
    ensures others { IfOk result (λ table. (l : Option LotValue) → IsNoted known.entry.value l
        → IsTold table l) }
{
    let mut table = known;
    table.note(key)?;
    Ok(Some(table))
}

/// The table of some slots and of a key that comes behind them; none where there are few slots, or
/// no lots.
pub(crate) fn table_with<'a>(
    alloc: Global,
    known: Option<Box<LotTable<'a>>>,
    slots: &Run<'_, Key<'a>>,
    key: &Key<'a>,
) -> Result<Option<Box<LotTable<'a>>>, AllocError>
    requires { AreTold known slots.now }
    ensures slots { IfOk result (λ table. AreTold table slots.now) }
    ensures key { IfOk result (λ table. IsTold table key.now.lot) }
{
    if key.lot.is_none() {
        return Ok(known);
    }
    match table_of(alloc, known, slots)? {
        Some(table) => noted(table, key),
        None => Ok(None),
    }
}
