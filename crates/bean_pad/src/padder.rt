//! Pads and balances, step by step.
ghost use Rattle.std.specs.Prelude.{◌≡◌, ◌+◌, ◌*◌, ◌<◌, ◌≤◌, ◌^◌, ◌-ℤ◌, [], ◌∷◌, IfOk, OnOk};
ghost use Rattle.std.specs.Prelude as prelude;
ghost use Rattle.std.specs.Int.RustNames.{unsigned_abs};
ghost use Rattle.bean_pad.specs.Following as following;
ghost use Rattle.bean_pad.specs.Following.{Follows, IsBounded, steps_in};
ghost use Rattle.bean_base.specs.Counts.{at_8};
ghost use Rattle.bean_pad.specs.Held.{held, written};
ghost use Rattle.bean_pad.specs.Note as spec;
ghost use Rattle.bean_pad.specs.Note.{IsAmong, IsBelow, noted_pads};
ghost use Rattle.bean_pad.specs.Padded.{IsPadded, faults_with};
ghost use Rattle.bean_pad.specs.Trail.{IsNear, check_of};
ghost use Rattle.bean_pad.specs.declared.check.Passed.TheVariants as passed;
ghost use Rattle.bean_pad.specs.declared.step.Step.{Step};
ghost use Rattle.bean_pad.specs.declared.step.Step.TheVariants as step;

use crate::balanced::{Balanced, Latest, Seen};
use crate::check::{Check, Passed, add_failing, add_faults};
use crate::note::{Note, NotedPad, Outcome, count_in, keep};
use crate::sums::Sums;
use crate::tolerance::{is_out, tolerance_of};
use bean_base::{Account, Amount, Day, Fault, List, Place};
use bean_directives::{Balance, Pad};
use std::alloc::{AllocError, Global};

/// What pads and balances come to.
#[derive(Drop)]
pub struct Padded<'a> {
    /// The pads in their order, each with what comes of it.
    pub pads: List<NotedPad<'a>>,
    /// The faults of the pads, then those of the balances, each in their order.
    pub faults: List<Fault>,
}

/// What is known of pads and balances while the steps of a ledger are gone through.
pub struct Padder<'a> {
    alloc: Global,
    written: Sums<'a>,
    balanced: Balanced<'a>,
    latest: Latest<'a>,
    pads: Vec<NotedPad<'a>>,
    trail: Vec<Passed<'a>>,
    steps: usize,
}

/// Written out, so that crates which give one up need to know nothing of what is in it.
impl Drop for Padder<'_> {
    fn drop(self) {
        let Padder {
            alloc: _,
            written: _,
            balanced: _,
            latest: _,
            pads: _,
            trail: _,
            steps: _,
        } = self;
    }
}

/// The latest pad, unless it stands before the latest balance.
fn unless_used(pad: Option<usize>, before: usize) -> Option<usize>
    ensures is { result ≡ following.unless_used pad before }
    ensures below { (n : prelude.ℕ) → IsBelow n pad → IsBelow n result }
{
    let pad = pad?;
    if pad < before { None } else { Some(pad) }
}

/// What comes of a balance that is out of tolerance, off by so much.
fn note_of<'a>(difference: i128, balance: &Balance<'a>, is_at_cost: bool) -> Note<'a>
    ensures { result ≡ spec.note_of difference balance.now is_at_cost }
{
    Note {
        currency: balance.currency.lend(),
        outcome: Outcome::of(difference, is_at_cost),
    }
}

/// What comes of a balance that is off by so much, where that pad waits for it.
fn noted_of<'a>(
    pad: Option<usize>,
    difference: i128,
    balance: &Balance<'a>,
    is_at_cost: bool,
) -> Option<(usize, Note<'a>)>
    requires { unsigned_abs difference < 2 ^ 127 }
    ensures is { result ≡ spec.noted_of pad difference balance.now is_at_cost }
    ensures among { (n : prelude.ℕ) → IsBelow n pad → IsAmong n result }
{
    let pad = pad?;
    if is_out(difference, tolerance_of(balance)) {
        Some((pad, note_of(difference, balance, is_at_cost)))
    } else {
        None
    }
}

impl<'a> Padder<'a> {
    /// Before the first step. Takes no memory.
    pub fn new(alloc: Global) -> Padder<'a>
        ensures follows { Follows [] result }
        ensures bounded { IsBounded result }
        ensures steps { steps_in result ≡ 0 }
    {
        Padder {
            alloc,
            written: Sums::new(alloc),
            balanced: Balanced::new(alloc),
            latest: Latest::new(alloc),
            pads: Vec::new(alloc),
            trail: Vec::new(alloc),
            steps: 0,
        }
    }

    /// The next step is a posting of a written transaction.
    pub fn post(&mut self, account: &Account<'a>, units: &Amount<'a>) -> Result<(), AllocError>
        requires bounded { IsBounded self.old }
        requires few { steps_in self.old < 2 ^ 40 }
        ensures follows { OnOk result ((past : prelude.List Step) → Follows past self.old
            → Follows (step.Posting account.now units.now ∷ past) self.new) }
        ensures bounded { OnOk result (IsBounded self.new) }
        ensures steps { OnOk result (steps_in self.new ≡ steps_in self.old + 1) }
    {
        self.written
            .add(account, &units.currency, units.number.scaled(8))?;
        self.steps += 1;
        Ok(())
    }

    /// The next step is a pad.
    pub fn pad(&mut self, pad: Pad<'a>, day: Day, place: Place) -> Result<(), AllocError>
        requires bounded { IsBounded self.old }
        requires few { steps_in self.old < 2 ^ 40 }
        ensures follows { OnOk result ((past : prelude.List Step) → Follows past self.old
            → Follows (step.Pad pad.entry day place ∷ past) self.new) }
        ensures bounded { OnOk result (IsBounded self.new) }
        ensures steps { OnOk result (steps_in self.new ≡ steps_in self.old + 1) }
    {
        self.latest.set(&pad.account, self.pads.len())?;
        self.pads.push(NotedPad::new(self.alloc, pad, day, place))?;
        self.trail.push(Passed::Pad)?;
        self.steps += 1;
        Ok(())
    }

    /// The pad that waits for a balance.
    #[tactic(auto, using(crate::proofs::WaitingFacts::waiting_is_unless_used))]
    fn waiting(&self, balance: &Balance<'_>) -> Option<usize>
        requires bounded { IsBounded self.now }
        ensures waiting { (past : prelude.List Step) → Follows past self.now
            → result ≡ spec.waiting past balance.now.account balance.now.currency }
        ensures below { IsBelow (prelude.length self.now.pads.items) result }
    {
        let seen = self.balanced.get(&balance.account, &balance.currency);
        unless_used(self.latest.get(&balance.account), seen.pads)
    }

    /// A balance's number less what is written.
    fn short(&self, balance: &Balance<'_>) -> i128
        requires bounded { IsBounded self.now }
        requires few { steps_in self.now < 2 ^ 40 }
        ensures is { (past : prelude.List Step) → Follows past self.now → result
            ≡ at_8 balance.now.number
            -ℤ held (written past) balance.now.account balance.now.currency }
        ensures small { unsigned_abs result ≤ (steps_in self.now + 1) * 10 ^ 20 }
    {
        let written = self.written.get(&balance.account, &balance.currency);
        balance.number.scaled(8) - written
    }

    /// A balance's number less what is written, and less what was padded on its account.
    fn difference(&self, balance: &Balance<'_>) -> i128
        requires bounded { IsBounded self.now }
        requires few { steps_in self.now < 2 ^ 40 }
        ensures is { (past : prelude.List Step) → Follows past self.now → result
            ≡ spec.difference past balance.now }
        ensures small { unsigned_abs result < 2 ^ 127 }
    {
        let seen = self.balanced.get(&balance.account, &balance.currency);
        self.short(balance) - seen.padded
    }

    /// What comes of a balance.
    fn noted(&self, balance: &Balance<'a>, is_at_cost: bool) -> Option<(usize, Note<'a>)>
        requires bounded { IsBounded self.now }
        requires few { steps_in self.now < 2 ^ 40 }
        ensures is { (past : prelude.List Step) → Follows past self.now → result
            ≡ spec.noted past balance.now is_at_cost }
        ensures among { IsAmong (prelude.length self.now.pads.items) result }
    {
        noted_of(
            self.waiting(balance),
            self.difference(balance),
            balance,
            is_at_cost,
        )
    }

    /// What is to be checked of a balance once all paddings stand.
    fn check(&self, balance: &Balance<'a>, place: Place) -> Check<'a>
        requires bounded { IsBounded self.now }
        requires few { steps_in self.now < 2 ^ 40 }
        ensures is { (past : prelude.List Step) → Follows past self.now → result
            ≡ check_of past balance.now place }
        ensures near { IsNear (passed.Balance result) }
    {
        Check {
            account: balance.account.lend(),
            currency: balance.currency.lend(),
            short: self.short(balance),
            tolerance: tolerance_of(balance),
            place,
        }
    }

    /// The next step is a balance. Its account itself holds a lot of its currency, or not.
    pub fn balance(
        &mut self,
        balance: &Balance<'a>,
        place: Place,
        is_at_cost: bool,
    ) -> Result<(), AllocError>
        requires bounded { IsBounded self.old }
        requires few { steps_in self.old < 2 ^ 40 }
        ensures follows { OnOk result ((past : prelude.List Step) → Follows past self.old
            → Follows (step.Balance balance.now place is_at_cost ∷ past) self.new) }
        ensures bounded { OnOk result (IsBounded self.new) }
        ensures steps { OnOk result (steps_in self.new ≡ steps_in self.old + 1) }
    {
        let check = self.check(balance, place);
        let noted = self.noted(balance, is_at_cost);
        let seen = self.balanced.get(&balance.account, &balance.currency);
        let seen = Seen {
            padded: seen.padded + count_in(&noted),
            pads: self.pads.len(),
        };
        self.balanced
            .set(&balance.account, &balance.currency, seen)?;
        keep(&mut self.pads, noted)?;
        self.trail.push(Passed::Balance(check))?;
        self.steps += 1;
        Ok(())
    }

    /// The faults of the pads, then those of the balances, of all steps.
    fn faults(&self) -> Result<Vec<Fault>, AllocError>
        requires bounded { IsBounded self.now }
        requires few { steps_in self.now ≤ 2 ^ 40 }
        ensures { (past : prelude.List Step) → Follows past self.now → IfOk result (λ faults.
            faults.items ≡ faults_with (noted_pads past) past) }
    {
        let mut faults = Vec::new(self.alloc);
        add_faults(&self.pads, &mut faults)?;
        add_failing(self.alloc, &self.pads, &self.trail, &mut faults)?;
        Ok(faults)
    }

    /// The pads, with what comes of each.
    fn into_pads(self) -> Vec<NotedPad<'a>>
        ensures { result ≡ self.entry.pads }
    {
        let Padder {
            alloc: _,
            written: _,
            balanced: _,
            latest: _,
            pads,
            trail: _,
            steps: _,
        } = self;
        pads
    }

    /// What the pads and balances come to, of all steps.
    pub fn finish(self) -> Result<Padded<'a>, AllocError>
        requires bounded { IsBounded self }
        requires few { steps_in self ≤ 2 ^ 40 }
        ensures { (past : prelude.List Step) → Follows past self.entry
            → IfOk result (λ padded. IsPadded past padded) }
    {
        let faults = self.faults()?;
        Ok(Padded {
            pads: List::new(self.into_pads()),
            faults: List::new(faults),
        })
    }
}
