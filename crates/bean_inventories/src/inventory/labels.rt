//! Which lot has a label.
ghost use Rattle.std.specs.Prelude.{◌≡◌, OnOk, List, ℕ, Some, true};
ghost use Rattle.bean_inventories.specs.Labels.{IsAsNamed, IsNamed, is_bought, lot_at};
ghost use Rattle.bean_lots.specs.declared.lot.Lot.{Lot as LotValue};

use bean_base::{Day, Text};
use bean_lots::{Cost, Lot};
use indexmap::IndexMap;
use std::alloc::{AllocError, Global};

/// What the lots of a label cost and on which day they were bought, or that they differ in these.
#[derive(Drop)]
pub(crate) enum LabelLot<'a> {
    At(Cost<'a>, Day),
    Several,
}

impl<'a> LabelLot<'a> {
    /// The same once more.
    fn lend(&self) -> LabelLot<'a>
        ensures { result ≡ self.now }
    {
        match self {
            LabelLot::At(cost, day) => LabelLot::At(cost.lend(), *day),
            LabelLot::Several => LabelLot::Several,
        }
    }
}

/// Whether a lot was bought at a cost on a day.
fn is_bought(cost: &Cost<'_>, day: Day, lot: &Lot<'_>) -> bool
    ensures { result ≡ is_bought cost.now day lot.now }
{
    *cost == lot.cost && day == lot.day
}

/// What is told of a label, the lots of which were bought at a cost on a day, once another comes.
fn told_at<'a>(cost: Cost<'a>, day: Day, lot: &Lot<'_>) -> LabelLot<'a>
    ensures own { IsAsNamed (Some result) lot.now }
    ensures others { (l : LotValue) → is_bought cost.entry day l ≡ true
        → IsAsNamed (Some result) l }
{
    if is_bought(&cost, day, lot) {
        LabelLot::At(cost, day)
    } else {
        LabelLot::Several
    }
}

/// What is told of a label once a lot comes that has it.
fn told_with<'a>(told: Option<LabelLot<'a>>, lot: &Lot<'a>) -> LabelLot<'a>
    ensures own { IsAsNamed (Some result) lot.now }
    ensures others { (l : LotValue) → IsAsNamed told.entry l → IsAsNamed (Some result) l }
{
    match told {
        None => LabelLot::At(lot.cost.lend(), lot.day),
        Some(LabelLot::At(cost, day)) => told_at(cost, day, lot),
        Some(LabelLot::Several) => LabelLot::Several,
    }
}

/// What is told of each label.
#[derive(Drop)]
pub(crate) struct LabelLots<'a> {
    by_label: IndexMap<Text<'a>, LabelLot<'a>>,
}

impl<'a> LabelLots<'a> {
    pub(crate) fn new(alloc: Global) -> LabelLots<'a> {
        LabelLots {
            by_label: IndexMap::new(alloc),
        }
    }

    /// What is told of a label. Where it is nothing, no slot is that of a lot that has it.
    pub(crate) fn lot_at(&self, label: &Text<'_>) -> Option<LabelLot<'a>>
        ensures { result ≡ lot_at self.now label.now }
    {
        match self.by_label.get(label) {
            Some(told) => Some(told.lend()),
            None => None,
        }
    }

    /// Of how many labels something is told.
    pub(crate) fn len(&self) -> usize {
        self.by_label.len()
    }

    /// Notes a lot that comes, which has a label.
    fn note_label(&mut self, label: &Text<'a>, lot: &Lot<'a>) -> Result<(), AllocError>
        ensures own { OnOk result (IsAsNamed (lot_at self.new label.now) lot.now) }
        ensures others { (name : List ℕ) (l : LotValue) → IsAsNamed (lot_at self.old name) l
            → IsAsNamed (lot_at self.new name) l }
    {
        let told = told_with(self.lot_at(label), lot);
        self.by_label.insert(label.lend(), told)?;
        Ok(())
    }

    /// Notes a lot that comes.
    pub(crate) fn note(&mut self, lot: &Lot<'a>) -> Result<(), AllocError>
        ensures own { OnOk result (IsNamed self.new lot.now) }
        ensures others { (l : LotValue) → IsNamed self.old l → IsNamed self.new l }
    {
        match &lot.label {
            Some(label) => self.note_label(label, lot),
            None => Ok(()),
        }
    }
}
