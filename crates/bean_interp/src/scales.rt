//! Scales: transactions are laid on them one after the other, to be completed and to be judged.
ghost use Rattle.std.specs.Prelude as prelude;
ghost use Rattle.bean_interp.specs.Evened.{CompletionBalances};
ghost use Rattle.std.specs.Prelude.{◌≡◌, ◌∷◌, ◌++◌, ◌<◌, [], ℕ, Err, IfOk, IsTrue, OnOk};
ghost use Rattle.std.specs.Prelude.{length, true};
ghost use Rattle.std.specs.List.{list_all};
ghost use Rattle.bean_interp.specs.Lacking.{is_whole};

use crate::cause::{CompletionCause, WeighCause, completion_refusal};
use crate::due::number_due;
use crate::fill::Fill;
use crate::lacks::lack_too_much;
use crate::leg::Leg;
use crate::precision::{Precisions, half_unit};
use crate::sums::Sums;
use bean_base::{Amount, Currency, List};
use refusals::Refusal;
use std::alloc::{AllocError, Global};

/// What the legs of one transaction weigh together, and the decimals to which it is exact.
///
/// They are used again for the next transaction, so that weighing takes no memory in the long run.
pub struct Scales<'a> {
    pub sums: Sums<'a>,
    pub precisions: Precisions<'a>,
}

/// Written out, so that what gives one up needs to know nothing of what is in it.
impl Drop for Scales<'_> {
    fn drop(self) {
        let Scales {
            sums: _,
            precisions: _,
        } = self;
    }
}

/// Whether no leg lacks anything.
fn are_whole(legs: &[Leg<'_>]) -> bool
    ensures { result ≡ list_all is_whole legs.now }
{
    legs.iter().all(|leg| matches!(leg, Leg::Whole(_)))
}

impl<'a> Scales<'a> {
    ghost use Rattle.bean_interp.specs.Balance.{come_to_zero, is_balanced, is_even};
    ghost use Rattle.bean_interp.specs.Completion.{CanBeFilled, Completes, gaps, gaps_of};
    ghost use Rattle.bean_interp.specs.Filling.{AreFilled, HaveNumbers, all_currencies};
    ghost use Rattle.bean_interp.specs.Filling.{currency_at, gaps_in};
    ghost use Rattle.bean_interp.specs.Residual.{AreInRange};
    ghost use Rattle.bean_interp.specs.Scales.{AreNoted, AreSet, AreWeighed, GivesFill, HasNoFill};
    ghost use Rattle.bean_interp.specs.Weight.{IsOfUnits};
    ghost use Rattle.bean_interp.specs.declared.leg.Leg.{Leg};
    ghost use Rattle.bean_interp.specs.declared.leg.Leg.TheVariants as leg;
    ghost use Rattle.bean_interp.specs.declared.leg.Whole.{Whole};

    /// Scales with nothing on them. Takes no memory.
    pub fn new(alloc: Global) -> Scales<'a>
        ensures sums { result.sums ≡ [] }
        ensures precisions { result.precisions ≡ [] }
    {
        Scales {
            sums: Sums::new(alloc),
            precisions: Precisions::new(alloc),
        }
    }

    /// Takes all legs off the scales.
    pub fn clear(&mut self)
        ensures weighed { AreWeighed self.new [] }
        ensures noted { AreNoted self.new [] }
    {
        self.sums.clear();
        self.precisions.clear();
    }

    /// Lays one more leg on the scales. Its decimals aren't noted.
    pub fn add(&mut self, leg: &Leg<'a>) -> Result<(), Refusal<WeighCause>>
        ensures weighed { OnOk result ((legs : prelude.List Leg) → AreWeighed self.old legs
            → AreWeighed self.new (legs ++ leg.now ∷ [])) }
        ensures noted { (legs : prelude.List Leg) → AreNoted self.old legs
            → AreNoted self.new legs }
        ensures wide { result ≡ Err (Refusal.Refused WeighCause.TooWide)
            → (legs later : prelude.List Leg) → AreWeighed self.old legs
            → ¬ AreInRange (legs ++ leg.now ∷ later) }
    {
        self.sums.add_leg(leg)
    }

    /// The same for a leg of units that are worth themselves.
    pub fn add_units(&mut self, units: &Amount<'a>) -> Result<(), Refusal<WeighCause>>
        ensures weighed { (w : Whole) → IsOfUnits units.now w
            → OnOk result ((legs : prelude.List Leg) → AreWeighed self.old legs
            → AreWeighed self.new (legs ++ leg.Whole w ∷ [])) }
        ensures noted { (legs : prelude.List Leg) → AreNoted self.old legs
            → AreNoted self.new legs }
        ensures wide { result ≡ Err (Refusal.Refused WeighCause.TooWide)
            → (w : Whole) → IsOfUnits units.now w → (legs later : prelude.List Leg)
            → AreWeighed self.old legs → ¬ AreInRange (legs ++ leg.Whole w ∷ later) }
    {
        self.sums.add_units(units)
    }

    /// Notes the decimals that are written in one more leg.
    pub fn note(&mut self, leg: &Leg<'a>) -> Result<(), AllocError>
        ensures noted { OnOk result ((legs : prelude.List Leg) → AreNoted self.old legs
            → AreNoted self.new (legs ++ leg.now ∷ [])) }
        ensures weighed { (legs : prelude.List Leg) → AreWeighed self.old legs
            → AreWeighed self.new legs }
    {
        self.precisions.note_leg(leg)
    }

    /// Whether the legs on the scales come to 0 in every currency. Such a transaction balances,
    /// whatever decimals are written.
    pub fn are_zero(&self) -> bool
        ensures exact { (legs : prelude.List Leg) → AreWeighed self.now legs
            → result ≡ come_to_zero legs }
        ensures balanced { IsTrue result → (legs : prelude.List Leg) → AreWeighed self.now legs
            → is_balanced legs ≡ true }
    {
        self.sums.are_zero()
    }

    /// Lays the legs of a transaction on the scales, in place of those that were there.
    pub fn set(&mut self, legs: &[Leg<'a>]) -> Result<(), Refusal<WeighCause>>
        ensures set { OnOk result (AreSet self.new legs.now) }
        ensures wide { result ≡ Err (Refusal.Refused WeighCause.TooWide) → ¬ AreInRange legs.now }
    {
        self.precisions.read(legs)?;
        self.sums.weigh(legs)
    }

    /// What a leg takes of a currency.
    fn fill(&self, leg: usize, currency: &Currency<'a>) -> Result<Fill<'a>, Refusal<WeighCause>>
        ensures { (legs : prelude.List Leg) → AreSet self.now legs
            → GivesFill legs leg currency.now result }
    {
        match number_due(self.precisions.of(currency), self.sums.of(currency)) {
            Ok(number) => Ok(Fill {
                leg,
                amount: Amount {
                    number,
                    currency: currency.lend(),
                },
            }),
            Err(_) => Err(Refusal::Refused(WeighCause::TooWide)),
        }
    }

    /// Adds what a leg takes of a currency.
    fn fill_one(
        &self,
        leg: usize,
        currency: &Currency<'a>,
        fills: &mut Vec<Fill<'a>>,
    ) -> Result<(), Refusal<WeighCause>>
        ensures filled { (legs : prelude.List Leg) → AreSet self.now legs
            → OnOk result (AreFilled legs ((leg, currency.now) ∷ [])
            fills.old.items fills.new.items) }
        ensures none { (legs : prelude.List Leg) → AreSet self.now legs
            → result ≡ Err (Refusal.Refused WeighCause.TooWide) → HasNoFill legs currency.now }
    {
        match self.fill(leg, currency) {
            Ok(fill) => {
                fills.push(fill)?;
                Ok(())
            }
            Err(fault) => Err(fault),
        }
    }

    /// Adds what a leg takes of the currency at an index, where that lacks something.
    fn fill_at(
        &self,
        leg: usize,
        index: usize,
        fills: &mut Vec<Fill<'a>>,
    ) -> Result<(), Refusal<WeighCause>>
        requires { index < length self.now.sums }
        ensures filled { (legs : prelude.List Leg) (d : prelude.List ℕ) → AreSet self.now legs
            → OnOk result (AreFilled legs (gaps_in legs leg (currency_at legs index d ∷ []))
            fills.old.items fills.new.items) }
        ensures none { (legs : prelude.List Leg) (d : prelude.List ℕ) → AreSet self.now legs
            → result ≡ Err (Refusal.Refused WeighCause.TooWide)
            → ¬ HaveNumbers legs (gaps_in legs leg (currency_at legs index d ∷ [])) }
    {
        let (currency, sum) = self.sums.at(index);
        if sum == 0 {
            return Ok(());
        }
        self.fill_one(leg, currency, fills)
    }

    /// Adds what a leg takes of each currency that lacks something, in order of first appearance.
    fn fill_lacking(&self, leg: usize, fills: &mut Vec<Fill<'a>>) -> Result<(), Refusal<WeighCause>>
        ensures filled { (legs : prelude.List Leg) → AreSet self.now legs
            → OnOk result (AreFilled legs (gaps_in legs leg (all_currencies legs))
            fills.old.items fills.new.items) }
        ensures none { (legs : prelude.List Leg) → AreSet self.now legs
            → result ≡ Err (Refusal.Refused WeighCause.TooWide)
            → ¬ HaveNumbers legs (gaps_in legs leg (all_currencies legs)) }
    {
        for index in 0..self.sums.len() {
            match self.fill_at(leg, index, fills) {
                Ok(()) => {}
                Err(fault) => return Err(fault),
            }
        }
        Ok(())
    }

    /// Adds what a leg of the transaction on the scales takes.
    fn fill_leg(
        &self,
        number: usize,
        leg: &Leg<'a>,
        fills: &mut Vec<Fill<'a>>,
    ) -> Result<(), Refusal<WeighCause>>
        ensures filled { (legs : prelude.List Leg) → AreSet self.now legs
            → OnOk result (AreFilled legs (gaps_of legs number leg.now)
            fills.old.items fills.new.items) }
        ensures none { (legs : prelude.List Leg) → AreSet self.now legs
            → result ≡ Err (Refusal.Refused WeighCause.TooWide)
            → ¬ HaveNumbers legs (gaps_of legs number leg.now) }
    {
        match leg {
            Leg::Whole(_) => Ok(()),
            Leg::MissingNumber(currency) => self.fill_one(number, currency, fills),
            Leg::MissingAmount => self.fill_lacking(number, fills),
        }
    }

    /// Adds what the legs on the scales take.
    fn fill_all(
        &self,
        legs: &[Leg<'a>],
        fills: &mut Vec<Fill<'a>>,
    ) -> Result<(), Refusal<WeighCause>>
        requires { AreSet self.now legs.now }
        ensures filled { OnOk result
            (AreFilled legs.now (gaps legs.now) fills.old.items fills.new.items) }
        ensures none { result ≡ Err (Refusal.Refused WeighCause.TooWide) → ¬ CanBeFilled legs.now }
    {
        for number in 0..legs.len() {
            match self.fill_leg(number, &legs[number], fills) {
                Ok(()) => {}
                Err(fault) => return Err(fault),
            }
        }
        Ok(())
    }

    /// Weighs legs that lack nothing, as most do: their decimals aren't looked at.
    fn weigh_whole(
        &mut self,
        alloc: Global,
        legs: &[Leg<'a>],
    ) -> Result<List<Fill<'a>>, Refusal<CompletionCause>>
        requires { list_all is_whole legs.now ≡ true }
        ensures { Completes legs.now result }
    {
        match self.sums.weigh(legs) {
            Ok(()) => Ok(List::new(Vec::new(alloc))),
            Err(fault) => Err(completion_refusal(fault)),
        }
    }

    /// What the legs of a transaction take that lack something: a leg that lacks its number takes
    /// what its currency lacks, and one that lacks its amount takes what each currency lacks, in
    /// order of first appearance.
    pub fn complete(
        &mut self,
        alloc: Global,
        legs: &[Leg<'a>],
    ) -> Result<List<Fill<'a>>, Refusal<CompletionCause>>
        ensures { Completes legs.now result }
    {
        if are_whole(legs) {
            return self.weigh_whole(alloc, legs);
        }
        if lack_too_much(alloc, legs)? {
            return Err(Refusal::Refused(CompletionCause::LackTooMuch));
        }
        if let Err(fault) = self.set(legs) {
            return Err(completion_refusal(fault));
        }
        let mut fills = Vec::new(alloc);
        match self.fill_all(legs, &mut fills) {
            Ok(()) => Ok(List::new(fills)),
            Err(fault) => Err(completion_refusal(fault)),
        }
    }

    /// What a last leg takes that lacks its amount, behind so many legs that lack nothing: these lie on
    /// the scales, and their decimals are noted.
    pub fn fill_last(
        &self,
        alloc: Global,
        last: usize,
    ) -> Result<List<Fill<'a>>, Refusal<CompletionCause>>
        ensures { (legs : prelude.List Leg) → list_all is_whole legs ≡ true → length legs ≡ last
            → AreSet self.now legs → Completes (legs ++ leg.MissingAmount ∷ []) result }
    {
        // Most lack one currency.
        let mut fills = Vec::with_capacity(alloc, 1)?;
        match self.fill_lacking(last, &mut fills) {
            Ok(()) => Ok(List::new(fills)),
            Err(fault) => Err(completion_refusal(fault)),
        }
    }

    /// Whether the sum at an index is no more than the tolerance of its currency.
    fn is_even_at(&self, index: usize) -> bool
        requires { index < length self.now.sums }
        ensures { (legs : prelude.List Leg) (d : prelude.List ℕ) → AreSet self.now legs
            → result ≡ is_even legs (currency_at legs index d) }
    {
        let (currency, sum) = self.sums.at(index);
        sum.unsigned_abs() <= half_unit(self.precisions.of(currency))
    }

    /// Whether the transaction on the scales balances, whose decimals are noted: in each currency
    /// its weights sum to no more than the tolerance, which is half a unit of the last decimal that
    /// is written for it, and 0 without decimals. What legs lack is left aside.
    pub fn are_even(&self) -> bool
        ensures { (legs : prelude.List Leg) → AreSet self.now legs → result ≡ is_balanced legs }
    {
        for index in 0..self.sums.len() {
            if !self.is_even_at(index) {
                return false;
            }
        }
        true
    }
}

/// What completion fills in balances the transaction in every currency that was filled.
pub fn completion_balances()
    ensures { CompletionBalances }
{}
