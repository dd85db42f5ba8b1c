//! What legs lack, and whether it is more than can be filled in.
ghost use Rattle.std.specs.Prelude.{◌≡◌, ◌++◌, [], ◌∷◌, List, IfOk, OnOk};
ghost use Rattle.std.specs.List.{list_any};
ghost use Rattle.bean_interp.specs.Lacking as spec;
ghost use Rattle.bean_interp.specs.Lacking.{AreLacked, clash};
ghost use Rattle.bean_interp.specs.declared.leg.Leg.{Leg};

use crate::leg::Leg;
use bean_base::Currency;
use indexmap::IndexSet;
use std::alloc::{AllocError, Global};

/// What some legs lack.
pub(crate) struct Lacks<'a> {
    pub has_amount: bool,
    pub has_number: bool,
    /// The currencies in which a number lacks.
    pub currencies: IndexSet<Currency<'a>>,
}

/// Written out, so that what gives one up needs to know nothing of what is in it.
impl Drop for Lacks<'_> {
    fn drop(self) {
        let Lacks {
            has_amount: _,
            has_number: _,
            currencies: _,
        } = self;
    }
}

impl<'a> Lacks<'a> {
    fn new(alloc: Global) -> Lacks<'a>
        ensures { AreLacked result [] }
    {
        Lacks {
            has_amount: false,
            has_number: false,
            currencies: IndexSet::new(alloc),
        }
    }

    /// Whether a leg lacks what may not lack beside these.
    fn clashes(&self, leg: &Leg<'_>) -> bool
        ensures { (legs : List Leg) → AreLacked self.now legs → result
            ≡ list_any (clash leg.now) legs }
    {
        match leg {
            Leg::Whole(_) => false,
            Leg::MissingNumber(currency) => self.has_amount | self.currencies.contains(currency),
            Leg::MissingAmount => self.has_amount | self.has_number,
        }
    }

    /// Adds what a leg lacks.
    fn add(&mut self, leg: &Leg<'a>) -> Result<(), AllocError>
        ensures { (legs : List Leg) → AreLacked self.old legs
            → OnOk result (AreLacked self.new (legs ++ leg.now ∷ [])) }
    {
        match leg {
            Leg::Whole(_) => Ok(()),
            Leg::MissingNumber(currency) => {
                self.has_number = true;
                self.currencies.insert(currency.lend())?;
                Ok(())
            }
            Leg::MissingAmount => {
                self.has_amount = true;
                Ok(())
            }
        }
    }
}

/// Whether two legs lack an amount, two a number of one currency, or one the one and one the other.
pub(crate) fn lack_too_much(alloc: Global, legs: &[Leg<'_>]) -> Result<bool, AllocError>
    ensures { IfOk result (λ too_much. too_much ≡ spec.lack_too_much legs.now) }
{
    let mut lacks = Lacks::new(alloc);
    for leg in legs {
        if lacks.clashes(leg) {
            return Ok(true);
        }
        lacks.add(leg)?;
    }
    Ok(false)
}
