//! One directive after the other.
ghost use Rattle.std.specs.Prelude.{◌≡◌, ◌≢◌, ◌<◌, ◌+◌, ◌∷◌, [], ℕ, IfOk, OnOk, Ok, length, true};
ghost use Rattle.std.specs.Prelude as prelude;
ghost use Rattle.std.specs.List.{AllByRecursion};
ghost use Rattle.limits.specs.declared.counts.TheConstants.{MOST_POSTINGS};
ghost use Rattle.bean_accounts.specs.Log.{is_kept};
ghost use Rattle.bean_replay.specs.Booker.{IsBehind, IsStanding, Stands, Wherever, asks};
ghost use Rattle.bean_replay.specs.Booker.{draft_of, pad_in};
ghost use Rattle.bean_replay.specs.Stand as spec;
ghost use Rattle.bean_replay.specs.Stand.{IsFull, IsStepBy, Stand, after_trial, setting_of, start};
ghost use Rattle.bean_replay.specs.Watched.{is_watching};
ghost use Rattle.bean_directives.specs.declared.directive.Directive as directives;
ghost use Rattle.bean_directives.specs.declared.directive.DirectiveKind.TheVariants as kinds;
ghost use Rattle.bean_directives.specs.declared.transaction.Transaction as transactions;
ghost use Rattle.bean_holdings.specs.Holdings.{additions_in};
ghost use Rattle.bean_loaded.specs.declared.placed.Placed as places;
ghost use Rattle.bean_interp.specs.Residual.{IsLight};
ghost use Rattle.bean_reductions.specs.declared.reduction.Method.{Method};
ghost use Rattle.bean_accounts.specs.Methods.{method_in};
ghost use Rattle.bean_transactions.specs.Tried.{KnowsBalance, Tries, booked_legs};
ghost use Rattle.bean_holdings.specs.declared.posted.Posted as declared;
ghost use Rattle.bean_transactions.specs.declared.stop.LineFault as trials;

use crate::accounts::{take_balance, take_close, take_open, take_pad};
use crate::booking::Kept;
use crate::cause::BookCause;
use crate::postings::{book_postings, note_balance};
use crate::steps::show_watched;
use crate::written::Written;
use bean_accounts::{Accounts, FaultLog, Methods};
use bean_base::{Day, Fault, List, Place};
use bean_directives::DirectiveKind;
use bean_holdings::{Holdings, Posted};
use bean_interp::Scales;
use bean_pad::Padder;
use bean_postings::WrittenPosting;
use bean_transactions::{Head, LineFault, Tried, Weighing, try_transaction};
use limits::MOST_POSTINGS;
use refusals::Refusal;
use std::alloc::Global;
use std::mem::replace;

/// What is known of all that was booked so far. What is booked itself is handed over.
pub(crate) struct Booker<'a> {
    alloc: Global,
    methods: Methods<'a>,
    accounts: Accounts<'a>,
    holdings: Holdings<'a>,
    scales: Scales<'a>,
    /// A list that is used no more, for what the next transaction is booked as.
    spare: Vec<Posted<'a>>,
    pub padder: Padder<'a>,
    /// Whether any directive is a pad or a balance. Where none is the padder is shown nothing, so
    /// that such a ledger sums nothing up.
    pub watched: bool,
    /// Where nobody asks for faults, nothing is weighed to know whether it balances.
    pub faults: FaultLog,
}

/// Written out, so that what gives one up needs to know nothing of what is in it.
impl Drop for Booker<'_> {
    fn drop(self) {
        let Booker {
            alloc: _,
            methods: _,
            accounts: _,
            holdings: _,
            scales: _,
            spare: _,
            padder: _,
            watched: _,
            faults: _,
        } = self;
    }
}

impl<'a> Booker<'a> {
    /// Before the first directive. It keeps faults where a log does that it is shown. Takes no memory.
    pub(crate) fn new(
        alloc: Global,
        methods: Methods<'a>,
        watched: bool,
        asked: &FaultLog,
    ) -> Booker<'a>
        ensures stands { (m : prelude.List ℕ → Method)
            → ((a : prelude.List ℕ) → m a ≡ method_in methods.entry a)
            → IsStanding m [] start result }
        ensures asks { asks result ≡ (watched, is_kept asked.now) }
    {
        Booker {
            alloc,
            methods,
            accounts: Accounts::new(alloc),
            holdings: Holdings::new(alloc),
            scales: Scales::new(alloc),
            spare: Vec::new(alloc),
            padder: Padder::new(alloc),
            watched,
            faults: asked.emptied(alloc),
        }
    }

    /// Where faults are kept, it is asked of each transaction whether it balances.
    fn weighing(&self) -> Weighing {
        if self.faults.is_kept() {
            Weighing::Always
        } else {
            Weighing::WhereNeeded
        }
    }

    /// Books the postings of a transaction with these written ones, and gives them back.
    fn keep(
        &mut self,
        written: &Written<'a>,
        postings: &[WrittenPosting<'a>],
        tried: Tried<'a>,
    ) -> Result<Option<List<Posted<'a>>>, Refusal<BookCause>>
        requires stands { Stands self.old }
        requires own { postings.now ≡ written.now.transaction.postings }
        requires light { AllByRecursion IsLight
            (booked_legs written.now.transaction.postings tried.posted) }
        requires balances { KnowsBalance written.now.transaction.postings tried }
        ensures standing { Wherever self.old (λ m past st. IfOk result (λ postings.
            IsBehind m past st (after_trial past st written.now (Ok tried.entry.posted))
            (draft_of written.now postings) self.new)) }
        ensures asks { OnOk result (asks self.new ≡ asks self.old) }
        ensures full { result ≡ prelude.Err (Refusal.Refused BookCause.TooManyPostings)
            → MOST_POSTINGS < additions_in self.old.holdings + length tried.entry.posted }
    {
        if tried.posted.as_slice().len() > MOST_POSTINGS - self.holdings.additions() {
            return Err(Refusal::Refused(BookCause::TooManyPostings));
        }
        let at = written.place();
        note_balance(&mut self.scales, &mut self.faults, at, postings, &tried)?;
        let mut posted = tried.posted.into_vec();
        book_postings(
            self.alloc,
            &mut self.accounts,
            &mut self.holdings,
            &mut self.faults,
            at,
            postings,
            posted.as_mut_slice(),
        )?;
        show_watched(self.watched, &mut self.padder, posted.as_slice())?;
        Ok(Some(List::new(posted)))
    }

    /// Adds the fault with which a transaction is dropped.
    fn drop_with(
        &mut self,
        written: &Written<'a>,
        fault: LineFault,
    ) -> Result<Option<List<Posted<'a>>>, Refusal<BookCause>>
        ensures standing { Wherever self.old (λ m past st. IfOk result (λ postings.
            IsBehind m past st (after_trial past st written.now (prelude.Err fault))
            (draft_of written.now postings) self.new)) }
        ensures asks { OnOk result (asks self.new ≡ asks self.old) }
        ensures full { result ≢ prelude.Err (Refusal.Refused BookCause.TooManyPostings) }
    {
        self.faults.add(Fault {
            kind: fault.kind,
            place: Place {
                line: fault.line,
                ..written.place()
            },
        })?;
        Ok(None)
    }

    /// The postings that a transaction is booked as, or none where it is dropped with its fault.
    pub(crate) fn book(
        &mut self,
        written: &Written<'a>,
    ) -> Result<Option<List<Posted<'a>>>, Refusal<BookCause>>
        requires { Stands self.old }
        ensures standing { Wherever self.old (λ m past st. IfOk result (λ postings.
            (r : prelude.Result (prelude.List declared.Posted) trials.LineFault)
            × Tries (setting_of m st written.now) written.now.transaction.postings r
            × IsBehind m past st (after_trial past st written.now r) (draft_of written.now postings)
            self.new)) }
        ensures asks { OnOk result (asks self.new ≡ asks self.old) }
        ensures full { result ≡ prelude.Err (Refusal.Refused BookCause.TooManyPostings)
            → Wherever self.old (λ m past st.
            (r : prelude.Result (prelude.List declared.Posted) trials.LineFault)
            → Tries (setting_of m st written.now) written.now.transaction.postings r
            → IsFull (after_trial past st written.now r)) }
    {
        let head = Head {
            day: written.day(),
            line: written.place().line,
        };
        let postings = written.transaction().postings.as_slice();
        let spare = replace(&mut self.spare, Vec::new(self.alloc));
        let weighing = self.weighing();
        match try_transaction(
            self.alloc,
            &self.holdings,
            &self.methods,
            &mut self.scales,
            spare,
            head,
            postings,
            weighing,
        ) {
            Ok(tried) => self.keep(written, postings, tried),
            Err(Refusal::Refused(fault)) => self.drop_with(written, fault),
            Err(Refusal::OutOfMemory) => Err(Refusal::OutOfMemory),
        }
    }

    /// Takes a directive that is no transaction. The place of a pad is still to be handed over.
    pub(crate) fn take_other(
        &mut self,
        day: Day,
        place: Place,
        kind: &DirectiveKind<'a>,
    ) -> Result<(), Refusal<BookCause>>
        requires stands { Stands self.old }
        requires watched { is_watching kind.now ≡ true → self.old.watched ≡ true }
        requires other { (t : transactions.Transaction) → kind.now ≢ kinds.Transaction t }
        ensures standing { Wherever self.old (λ m past st.
            (d : places.Placed directives.Directive) → d.item.day ≡ day → spec.place_of d ≡ place
            → d.item.kind ≡ kind.now → OnOk result ((new : Stand)
            × IsStepBy m past st d d.item.kind new
            × IsBehind m (d ∷ past) st new (pad_in kind.now) self.new)) }
        ensures asks { OnOk result (asks self.new ≡ asks self.old) }
        ensures full { result ≢ prelude.Err (Refusal.Refused BookCause.TooManyPostings) }
    {
        match kind {
            DirectiveKind::Open(open) => {
                take_open(
                    self.alloc,
                    &mut self.accounts,
                    &mut self.faults,
                    place,
                    open,
                )?;
                Ok(())
            }
            DirectiveKind::Close(close) => {
                take_close(&mut self.accounts, &mut self.faults, place, close)?;
                Ok(())
            }
            DirectiveKind::Pad(pad) => {
                take_pad(
                    &self.accounts,
                    &mut self.padder,
                    &mut self.faults,
                    day,
                    place,
                    pad,
                )?;
                Ok(())
            }
            DirectiveKind::Balance(balance) => {
                take_balance(
                    self.alloc,
                    &self.accounts,
                    &self.holdings,
                    &mut self.padder,
                    &mut self.faults,
                    place,
                    balance.get(),
                )?;
                Ok(())
            }
            _ => Ok(()),
        }
    }

    /// Takes back a transaction that is kept, once it is handed over: the next is booked in its
    /// memory. The directive is given up, and what is made of the next comes to lie there.
    pub(crate) fn reuse(&mut self, kept: Kept<'a>)
        ensures standing { Wherever self.old (λ m past st. IsStanding m past st self.new) }
        ensures asks { asks self.new ≡ asks self.old }
    {
        self.spare = kept.postings.into_vec();
    }

    /// What it has found: the pads and balances, and the faults. What only served to find it is
    /// given up.
    pub(crate) fn into_found(self) -> (Padder<'a>, FaultLog)
        ensures { result ≡ (self.entry.padder, self.entry.faults) }
    {
        let alloc = self.alloc;
        let mut booker = self;
        let padder = replace(&mut booker.padder, Padder::new(alloc));
        let faults = replace(&mut booker.faults, FaultLog::Off);
        (padder, faults)
    }
}
