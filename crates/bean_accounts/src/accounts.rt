//! Accounts, as far as opens and closes came.
ghost use Rattle.std.specs.Prelude.{◌≡◌, ◌∷◌, ◌++◌, [], IfSome, OnOk, None, if◌then◌else◌, not};
ghost use Rattle.std.specs.Prelude as prelude;
ghost use Rattle.std.specs.Str.{bytes_eq};
ghost use Rattle.std.specs.Option.{option_map};
ghost use Rattle.bean_accounts.specs.Faults as spec;
ghost use Rattle.bean_accounts.specs.Faults.{faults_at};
ghost use Rattle.bean_accounts.specs.Kept.{IsKept, life_in};
ghost use Rattle.bean_accounts.specs.Life as lives;
ghost use Rattle.bean_accounts.specs.Log.{with_found};
ghost use Rattle.bean_accounts.specs.declared.step.Step.{Step};
ghost use Rattle.bean_accounts.specs.declared.step.Step.TheVariants as step;

use crate::life::Life;
use crate::log::FaultLog;
use crate::method::method_named;
use bean_base::{Account, Currency, Fault, FaultKind, Place, Text};
use byte_runs::Hints;
use indexmap::IndexMap;
use std::alloc::{AllocError, Global};

/// Adds a fault at a place, where it is one.
fn note_if(
    is_fault: bool,
    kind: FaultKind,
    at: Place,
    faults: &mut FaultLog,
) -> Result<(), AllocError>
    ensures { OnOk result (faults.new
        ≡ with_found (faults_at at (spec.kind_if is_fault kind)) faults.old) }
{
    if is_fault {
        faults.add(Fault { kind, place: at })?;
    }
    Ok(())
}

/// Adds the faults of a posting on an account of which this is known: F7, F8.
fn note_life(
    life: &Life<'_>,
    currency: &Currency<'_>,
    at: Place,
    faults: &mut FaultLog,
) -> Result<(), AllocError>
    ensures { OnOk result (faults.new ≡ with_found (faults_at at
        (spec.kind_if life.now.is_closed FaultKind.AccountClosed
        ++ spec.kind_if (not (lives.allows life.now currency.now)) FaultKind.CurrencyNotAllowed))
        faults.old) }
{
    if !faults.is_kept() {
        return Ok(());
    }
    note_if(life.is_closed, FaultKind::AccountClosed, at, faults)?;
    note_if(
        !life.allows(currency),
        FaultKind::CurrencyNotAllowed,
        at,
        faults,
    )
}

/// The accounts that were opened.
#[derive(Drop)]
pub struct Accounts<'a> {
    lives: IndexMap<Account<'a>, Life<'a>>,
    /// The places of those that were found last.
    hints: Hints,
}

impl<'a> Accounts<'a> {
    /// Before the first open. Takes no memory.
    pub fn new(alloc: Global) -> Accounts<'a>
        ensures { IsKept [] result }
    {
        Accounts {
            lives: IndexMap::new(alloc),
            hints: Hints::new(alloc),
        }
    }

    fn insert(&mut self, account: &Account<'a>, life: Life<'a>) -> Result<(), AllocError>
        ensures { OnOk result ((a : prelude.List prelude.ℕ) → life_in self.new a
            ≡ (if bytes_eq account.now a then prelude.Some life.entry else life_in self.old a)) }
    {
        self.lives.insert(account.lend(), life)?;
        Ok(())
    }

    /// An account is opened, unless it was before.
    pub fn open(
        &mut self,
        alloc: Global,
        account: &Account<'a>,
        currencies: &[Currency<'a>],
    ) -> Result<(), AllocError>
        ensures { (past : prelude.List Step) → IsKept past self.old
            → OnOk result (IsKept (step.Open account.now currencies.now ∷ past) self.new) }
    {
        if self.is_opened(account) {
            return Ok(());
        }
        let life = Life::new(alloc, currencies)?;
        self.insert(account, life)
    }

    /// An account is closed, if it is open. It keeps its place.
    pub fn close(&mut self, account: &Account<'a>)
        ensures { (past : prelude.List Step) → IsKept past self.old
            → IsKept (step.Close account.now ∷ past) self.new }
    {
        if let Some(life) = self.lives.get_mut(account) {
            life.is_closed = true;
        }
    }

    /// Whether an account is opened by now, closed or not.
    pub fn is_opened(&self, account: &Account<'_>) -> bool
        ensures { result ≡ lives.is_opened (life_in self.now account.now) }
    {
        self.lives.get(account).is_some()
    }

    /// Whether an account is closed by now.
    fn is_closed(&self, account: &Account<'_>) -> bool
        ensures { result ≡ lives.is_closed (life_in self.now account.now) }
    {
        match self.lives.get(account) {
            Some(life) => life.is_closed,
            None => false,
        }
    }

    /// The name that an open wrote and what is known of the account, where the account that was opened
    /// at a place is this one.
    #[inline(always)]
    fn opened_at(&self, place: usize, account: &Account<'_>) -> Option<(&Account<'a>, &Life<'a>)>
        ensures { IfSome result (λ found. (found.0.now ≡ account.now)
            × (life_in self.now account.now ≡ prelude.Some found.1.now)) }
    {
        let (opened, life) = self.lives.get_index(place)?;
        if *opened == *account {
            return Some((opened, life));
        }
        None
    }

    /// Adds the faults of a posting whose account isn't where one was found last.
    #[inline(never)]
    fn note_elsewhere(
        &mut self,
        account: &mut Account<'a>,
        currency: &Currency<'_>,
        at: Place,
        faults: &mut FaultLog,
    ) -> Result<usize, AllocError>
        ensures account { account.new ≡ account.old }
        ensures lives { self.new.lives ≡ self.old.lives }
        ensures faults { (past : prelude.List Step) → IsKept past self.old
            → OnOk result (faults.new
            ≡ with_found (faults_at at (spec.of_posting account.old currency.now past)) faults.old) }
    {
        let Some((place, opened, life)) = self.lives.get_full(&*account) else {
            note_if(true, FaultKind::AccountNotOpen, at, faults)?;
            return Ok(0);
        };
        note_life(life, currency, at, faults)?;
        self.hints.note(account.text(), place);
        *account = opened.lend();
        Ok(place)
    }

    /// Adds the faults of a posting: F6, F7, F8. Where its account was opened, the name becomes the
    /// one that the open wrote: these are the same bytes, which all postings on the account lend
    /// from one place then. It gives a number at which what else is kept of the account may be
    /// looked for first: nothing rests on it, and no clause says what it is.
    pub fn note_posting(
        &mut self,
        account: &mut Account<'a>,
        currency: &Currency<'_>,
        at: Place,
        faults: &mut FaultLog,
    ) -> Result<usize, AllocError>
        ensures account { account.new ≡ account.old }
        ensures kept { (past : prelude.List Step) → IsKept past self.old → IsKept past self.new }
        ensures faults { (past : prelude.List Step) → IsKept past self.old
            → OnOk result (faults.new
            ≡ with_found (faults_at at (spec.of_posting account.old currency.now past)) faults.old) }
    {
        let place = self.hints.place_for(account.text());
        let Some((opened, life)) = self.opened_at(place, account) else {
            return self.note_elsewhere(account, currency, at, faults);
        };
        note_life(life, currency, at, faults)?;
        *account = opened.lend();
        Ok(place)
    }

    /// Adds the fault of what wants an account to be opened: F6.
    pub fn note_use(
        &self,
        account: &Account<'_>,
        at: Place,
        faults: &mut FaultLog,
    ) -> Result<(), AllocError>
        ensures { (past : prelude.List Step) → IsKept past self.now
            → OnOk result (faults.new
            ≡ with_found (faults_at at (spec.of_use account.now past)) faults.old) }
    {
        note_if(
            !self.is_opened(account),
            FaultKind::AccountNotOpen,
            at,
            faults,
        )
    }

    /// Adds the fault of an open that comes now: F9, F23.
    pub fn note_open(
        &self,
        account: &Account<'_>,
        method: &Option<Text<'_>>,
        at: Place,
        faults: &mut FaultLog,
    ) -> Result<(), AllocError>
        ensures { (past : prelude.List Step) → IsKept past self.now
            → OnOk result (faults.new
            ≡ with_found (faults_at at (spec.of_open account.now method.now past)) faults.old) }
    {
        if self.is_opened(account) {
            return note_if(true, FaultKind::OpenedTwice, at, faults);
        }
        note_if(is_unknown(method), FaultKind::UnknownMethod, at, faults)
    }

    /// Adds the fault of a close that comes now: F10.
    pub fn note_close(
        &self,
        account: &Account<'_>,
        at: Place,
        faults: &mut FaultLog,
    ) -> Result<(), AllocError>
        ensures { (past : prelude.List Step) → IsKept past self.now
            → OnOk result (faults.new
            ≡ with_found (faults_at at (spec.of_close account.now past)) faults.old) }
    {
        let is_open = self.is_opened(account) && !self.is_closed(account);
        note_if(!is_open, FaultKind::ClosedButNotOpen, at, faults)
    }
}

/// Whether a name is given that is no method's.
fn is_unknown(method: &Option<Text<'_>>) -> bool
    ensures { result ≡ spec.is_unknown method.now }
{
    match method {
        Some(name) => method_named(name).is_none(),
        None => false,
    }
}
