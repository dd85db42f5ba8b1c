//! Reductions: which lots are taken, and how much of each.
ghost use Rattle.std.specs.Prelude.{◌≡◌};

mod after;
mod by_cost;
mod by_label;
mod front;
mod last;
mod queue;
mod takes;

pub use after::{has_opposite, reduce_after};
use bean_base::{Currency, Day, Text};
use bean_lots::{Cost, Lot};
pub use takes::{one_reduction, reduce};

/// How an account chooses among its lots.
#[derive(Clone, Copy, Drop, PartialEq, Eq)]
pub enum Method {
    /// The one candidate, or all of them where their sum is the want.
    Strict,
    /// The earliest days first.
    Fifo,
    /// The latest days first.
    Lifo,
    /// No choice: nothing is reduced, and lots of both signs may stand together.
    None,
}

/// Which lots may be reduced: those of the currency that have every part that is given.
#[derive(Drop)]
pub struct Selector<'a> {
    pub currency: Currency<'a>,
    pub cost: Option<Cost<'a>>,
    pub day: Option<Day>,
    pub label: Option<Text<'a>>,
}

impl<'a> Selector<'a> {
    ghost use Rattle.std.specs.Prelude.{Some};
    ghost use Rattle.bean_inventories.specs.Days.{has_day};
    ghost use Rattle.bean_reductions.specs.Candidate.{has_cost, has_label, agrees};

    /// The lots of one day among those that it selects, where it gives no day.
    fn on(&self, day: Day) -> Selector<'a>
        ensures currency { result.currency ≡ self.now.currency }
        ensures cost { result.cost ≡ self.now.cost }
        ensures day { result.day ≡ Some day }
        ensures label { result.label ≡ self.now.label }
    {
        Selector {
            currency: self.currency.lend(),
            cost: match &self.cost {
                Some(cost) => Some(cost.lend()),
                None => None,
            },
            day: Some(day),
            label: match &self.label {
                Some(label) => Some(label.lend()),
                None => None,
            },
        }
    }

    fn has_cost(&self, lot: &Lot<'_>) -> bool
        ensures { result ≡ has_cost self.now.cost lot.now }
    {
        match &self.cost {
            Some(cost) => cost.count == lot.cost.count && cost.currency == lot.cost.currency,
            None => true,
        }
    }

    fn has_day(&self, lot: &Lot<'_>) -> bool
        ensures { result ≡ has_day self.now.day lot.now }
    {
        match self.day {
            Some(day) => day == lot.day,
            None => true,
        }
    }

    fn has_label(&self, lot: &Lot<'_>) -> bool
        ensures { result ≡ has_label self.now.label lot.now }
    {
        match &self.label {
            Some(_) => self.label == lot.label,
            None => true,
        }
    }

    /// Whether a lot has every part that is given.
    fn agrees(&self, lot: &Lot<'_>) -> bool
        ensures { result ≡ agrees self.now lot.now }
    {
        self.has_day(lot) && self.has_cost(lot) && self.has_label(lot)
    }
}
