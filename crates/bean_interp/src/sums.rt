//! Sums of weights, by currency.
ghost use Rattle.std.specs.Prelude.{◌≡◌, ◌<◌, ◌^◌, [], OnOk, Err, length, get_or};
ghost use Rattle.std.specs.Int.RustNames.{unsigned_abs};
ghost use Rattle.std.specs.List.{list_all};
ghost use Rattle.bean_interp.specs.Kept as rule;
ghost use Rattle.bean_interp.specs.Residual.{AreInRange, Weighed, weighed};
ghost use Rattle.bean_interp.specs.Sums.{Fits, IsNarrow, added, entry_of, is_zero, sum_with, table};
ghost use Rattle.bean_interp.specs.Sums.{with_leg};
ghost use Rattle.bean_interp.specs.Weight.{IsOfUnits};
ghost use Rattle.bean_interp.specs.declared.leg.Leg.TheVariants as leg;
ghost use Rattle.bean_interp.specs.declared.leg.Whole.{Whole};

use crate::cause::WeighCause;
use crate::leg::Leg;
use crate::weight::{TooWide, Weight};
use bean_base::{Amount, Currency};
use indexmap::IndexMap;
use refusals::Refusal;
use std::alloc::Global;
use std::marker::Model;

/// The most that a sum may count, and one.
const MOST: u128 = 100_000_000_000_000_000_000_000_000_000_000_000_000;

/// The first currency of some weights, with their sum.
#[derive(Drop)]
struct First<'a> {
    currency: Currency<'a>,
    sum: i128,
}

/// Whether a currency is the first, or would be.
#[inline(always)]
fn comes_first(first: &Option<First<'_>>, currency: &Currency<'_>) -> bool
    ensures { result ≡ rule.comes_first first.now currency.now }
{
    match first {
        Some(first) => *currency == first.currency,
        None => true,
    }
}

/// The sum of a currency, of which it is known whether it comes first.
#[inline(always)]
fn sum_before<'a>(
    is_first: bool,
    first: &Option<First<'a>>,
    others: &IndexMap<Currency<'a>, i128>,
    currency: &Currency<'_>,
) -> i128
    requires first { is_first ≡ rule.comes_first first.now currency.now }
    requires kept { rule.AreKept first.now others.now.entries }
    ensures sum { result ≡ entry_of (rule.sums_in first.now others.now.entries) currency.now }
    ensures bound { unsigned_abs result < 10 ^ 38 }
{
    let Some(first) = first else {
        return 0;
    };
    if is_first {
        return first.sum;
    }
    match others.get(currency) {
        Some(sum) => *sum,
        None => 0,
    }
}

/// What weights sum to in each currency, in the order in which the currencies first appeared. The
/// weights of most transactions are of one currency, which is hashed nowhere.
///
/// Its value is that table; no sum is `10^38` or more, signs left off.
pub struct Sums<'a> {
    first: Option<First<'a>>,
    others: IndexMap<Currency<'a>, i128>,
}

/// Written out, so that what gives one up needs to know nothing of what is in it.
impl Drop for Sums<'_> {
    fn drop(self) {
        let Sums {
            first: _,
            others: _,
        } = self;
    }
}

impl<'a> Model for Sums<'a> {
    ghost use Rattle.std.specs.Prelude.{List};
    ghost use Rattle.bean_interp.specs.Kept.{AreKept, sums_in};
    ghost use Rattle.bean_interp.specs.Residual.{Weighed};

    ghost Value = { List Weighed };

    ghost view = { λ s. sums_in s.first s.others.entries };

    ghost invariant = { λ s. AreKept s.first s.others.entries };
}

impl<'a> Sums<'a> {
    /// No weights. Takes no memory.
    pub fn new(alloc: Global) -> Sums<'a>
        ensures { result ≡ [] }
    {
        Sums {
            first: None,
            others: IndexMap::new(alloc),
        }
    }

    /// The sum of the weights in a currency, 0 where there are none.
    pub fn of(&self, currency: &Currency<'_>) -> i128
        ensures sum { result ≡ entry_of self.now currency.now }
        ensures bound { unsigned_abs result < 10 ^ 38 }
    {
        let is_first = comes_first(&self.first, currency);
        sum_before(is_first, &self.first, &self.others, currency)
    }

    /// How many currencies there are.
    pub fn len(&self) -> usize
        ensures { result ≡ length self.now }
    {
        match self.first {
            Some(_) => 1 + self.others.len(),
            None => 0,
        }
    }

    /// The currency at an index, in order of first appearance, with its sum.
    pub fn at(&self, index: usize) -> (&Currency<'a>, i128)
        requires { index < length self.now }
        ensures currency { (d : Weighed) → result.0.now ≡ (get_or self.now index d).0 }
        ensures sum { (d : Weighed) → result.1 ≡ (get_or self.now index d).1 }
        ensures bound { unsigned_abs result.1 < 10 ^ 38 }
    {
        let Some(first) = &self.first else {
            unreachable!()
        };
        if index == 0 {
            return (&first.currency, first.sum);
        }
        match self.others.get_index(index - 1) {
            Some((currency, sum)) => (currency, *sum),
            None => unreachable!(),
        }
    }

    /// Whether every sum is 0.
    pub fn are_zero(&self) -> bool
        ensures { result ≡ list_all is_zero self.now }
    {
        for index in 0..self.len() {
            if self.at(index).1 != 0 {
                return false;
            }
        }
        true
    }

    /// Adds a weight, unless the sum of its currency would be too wide.
    #[inline(always)]
    fn add(&mut self, weight: Weight<'a>) -> Result<(), Refusal<WeighCause>>
        ensures added { OnOk result
            (self.new ≡ added self.old weight.entry.currency weight.entry.count) }
        ensures narrow { OnOk result (IsNarrow (sum_with self.old weight.entry)) }
        ensures wide { result ≡ Err (Refusal.Refused WeighCause.TooWide)
            → ¬ IsNarrow (sum_with self.old weight.entry) }
    {
        let is_first = comes_first(&self.first, &weight.currency);
        let before = sum_before(is_first, &self.first, &self.others, &weight.currency);
        let sum = before + weight.count;
        if sum.unsigned_abs() >= MOST {
            return Err(Refusal::Refused(WeighCause::TooWide));
        }
        if is_first {
            self.first = Some(First {
                currency: weight.currency,
                sum,
            });
            return Ok(());
        }
        self.others.insert(weight.currency, sum)?;
        Ok(())
    }

    /// Takes all weights off.
    pub fn clear(&mut self)
        ensures { self.new ≡ [] }
    {
        self.first = None;
        if !self.others.is_empty() {
            self.others.clear();
        }
    }

    /// Adds what units weigh that are worth themselves.
    pub fn add_units(&mut self, units: &Amount<'a>) -> Result<(), Refusal<WeighCause>>
        ensures added { (w : Whole) → IsOfUnits units.now w
            → OnOk result (self.new ≡ with_leg self.old (leg.Whole w)) }
        ensures fits { (w : Whole) → IsOfUnits units.now w
            → OnOk result (Fits self.old (leg.Whole w)) }
        ensures wide { result ≡ Err (Refusal.Refused WeighCause.TooWide)
            → (w : Whole) → IsOfUnits units.now w → ¬ Fits self.old (leg.Whole w) }
    {
        self.add(Weight::of_units(units))
    }

    /// Adds what a leg weighs.
    pub fn add_leg(&mut self, leg: &Leg<'a>) -> Result<(), Refusal<WeighCause>>
        ensures added { OnOk result (self.new ≡ with_leg self.old leg.now) }
        ensures fits { OnOk result (Fits self.old leg.now) }
        ensures wide { result ≡ Err (Refusal.Refused WeighCause.TooWide) → ¬ Fits self.old leg.now }
    {
        match leg {
            Leg::Whole(whole) => match whole.weight() {
                Ok(weight) => self.add(weight),
                Err(TooWide) => Err(Refusal::Refused(WeighCause::TooWide)),
            },
            Leg::MissingNumber(_) | Leg::MissingAmount => Ok(()),
        }
    }

    /// Takes the weights of legs, in place of those that it had.
    pub fn weigh(&mut self, legs: &[Leg<'a>]) -> Result<(), Refusal<WeighCause>>
        ensures table { OnOk result (self.new ≡ table (weighed legs.now)) }
        ensures in_range { OnOk result (AreInRange legs.now) }
        ensures wide { result ≡ Err (Refusal.Refused WeighCause.TooWide) → ¬ AreInRange legs.now }
    {
        self.clear();
        for leg in legs {
            match self.add_leg(leg) {
                Ok(()) => {}
                Err(fault) => return Err(fault),
            }
        }
        Ok(())
    }
}
