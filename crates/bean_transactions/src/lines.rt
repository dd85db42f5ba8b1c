//! The lines of a transaction, posting by posting.
ghost use Rattle.std.specs.Prelude.{◌≡◌, ◌≤◌, ◌^◌, ◌++◌, ◌∷◌, [], false, List, OnOk, IfOk, IfErr};
ghost use Rattle.std.specs.Prelude.{Err, reverse, true};
ghost use Rattle.std.specs.List.{list_any};
ghost use Rattle.bean_postings.specs.Posting.{is_outside_profile};
ghost use Rattle.bean_transactions.specs.Held.{takes_in};
ghost use Rattle.bean_holdings.specs.Holdings.{IsBounded, additions_in};
ghost use Rattle.bean_transactions.specs.Lined.{AreLined, IsFirstFault, IsNext, Setting};
ghost use Rattle.bean_holdings.specs.Takes.{AreWithin, HasTaken};
ghost use Rattle.bean_holdings.specs.declared.posted.Posted.{Posted};
ghost use Rattle.bean_transactions.specs.Lines.{Adds, IsKeeping, IsSettled, is_lot};
ghost use Rattle.bean_transactions.specs.Outcome as spec;
ghost use Rattle.bean_transactions.specs.Outcome.{ComesOf, StopsAt, StopsWith};
ghost use Rattle.bean_holdings.specs.declared.holdings.Holdings as holdings;
ghost use Rattle.bean_transactions.specs.declared.line.Line.{Line};

use crate::line::Line;
use crate::outcome::{Outcome, outcome_of};
use crate::setting::Head;
use crate::stock::Stock;
use crate::stop::LineFault;
use bean_accounts::Methods;
use bean_holdings::{Holdings, Takes};
use bean_inventories::Inventory;
use bean_postings::{Cost, WrittenPosting};
use refusals::Refusal;
use std::alloc::{AllocError, Global};

/// Adds what a line takes, if anything.
fn note_line<'a, 's>(
    takes: &mut Takes<'a, 's>,
    alloc: Global,
    holdings: &'s Holdings<'a>,
    line: &Line<'a>,
) -> Result<(), AllocError>
    requires bounded { IsBounded holdings.now }
    requires few { additions_in holdings.now ≤ 2 ^ 40 }
    requires within { (ps : List Posted) × HasTaken holdings.now ps takes.old
        × AreWithin holdings.now (ps ++ takes_in (line.now ∷ [])) }
    ensures { (ps : List Posted) → HasTaken holdings.now ps takes.old
        → AreWithin holdings.now (ps ++ takes_in (line.now ∷ []))
        → OnOk result (HasTaken holdings.now (ps ++ takes_in (line.now ∷ [])) takes.new) }
{
    match line {
        Line::Take(take) => takes.add(alloc, holdings, take),
        _ => Ok(()),
    }
}

/// The lines of a transaction so far.
///
/// What is left of a lot is asked for by a posting with a cost in braces alone, and few transactions
/// have one behind a take. So takes are added up only once such a posting is met.
pub(crate) struct Lines<'a, 's> {
    lines: Vec<Line<'a>>,
    /// How many of the lines were gone through for their takes.
    noted: usize,
    takes: Takes<'a, 's>,
}

/// Written out, so that what gives one up needs to know nothing of what is in it.
impl Drop for Lines<'_, '_> {
    fn drop(self) {
        let Lines {
            lines: _,
            noted: _,
            takes: _,
        } = self;
    }
}

/// Whether a posting has a cost in braces. What comes of any other doesn't depend on what its
/// account holds, which isn't looked up then.
fn is_in_braces(posting: &WrittenPosting<'_>) -> bool
    ensures { result ≡ is_lot posting.now.details.cost }
{
    match posting.details() {
        Some(parts) => matches!(parts.cost, Cost::Lot(_)),
        None => false,
    }
}

impl<'a, 's> Lines<'a, 's> {
    fn new(alloc: Global, nothing: &'s Inventory<'a>) -> Lines<'a, 's>
        requires { nothing.now ≡ [] }
        ensures lines { result.lines.items ≡ [] }
        ensures keeping { (h : holdings.Holdings) → IsKeeping h result }
    {
        Lines {
            lines: Vec::new(alloc),
            noted: 0,
            takes: Takes::none(alloc, nothing),
        }
    }

    /// The vector of the lines.
    fn into_vec(self) -> Vec<Line<'a>>
        ensures { result.items ≡ self.entry.lines.items }
    {
        let Lines {
            lines,
            noted: _,
            takes: _,
        } = self;
        lines
    }

    /// Adds up the takes that weren't added up yet, where the next posting asks for what is left of
    /// lots.
    fn note_takes(
        &mut self,
        alloc: Global,
        holdings: &'s Holdings<'a>,
        next: &WrittenPosting<'a>,
    ) -> Result<(), AllocError>
        requires keeping { IsKeeping holdings.now self.old }
        requires bounded { IsBounded holdings.now }
        requires few { additions_in holdings.now ≤ 2 ^ 40 }
        ensures lines { OnOk result (self.new.lines.items ≡ self.old.lines.items) }
        ensures keeping { OnOk result (IsKeeping holdings.now self.new) }
        ensures taken { OnOk result (is_lot next.now.details.cost ≡ true
            → HasTaken holdings.now (takes_in self.new.lines.items) self.new.takes) }
    {
        if !is_in_braces(next) {
            return Ok(());
        }
        while self.noted < self.lines.len() {
            note_line(&mut self.takes, alloc, holdings, &self.lines[self.noted])?;
            self.noted += 1;
        }
        Ok(())
    }

    /// Adds what comes of a posting.
    fn add(&mut self, outcome: Outcome<'a>) -> Result<(), AllocError>
        ensures lines { OnOk result
            (self.new.lines.items ≡ self.old.lines.items ++ spec.lines_of outcome.entry) }
        ensures noted { self.new.noted ≡ self.old.noted }
        ensures takes { self.new.takes ≡ self.old.takes }
    {
        match outcome {
            Outcome::Line(line) => {
                self.lines.push(line)?;
                Ok(())
            }
            Outcome::Takes(lines) => {
                let mut lines = lines;
                self.lines.append(&mut lines)
            }
        }
    }

    /// What comes of a posting behind these lines.
    fn next(
        &self,
        alloc: Global,
        holdings: &'s Holdings<'a>,
        methods: &Methods<'a>,
        head: Head,
        index: usize,
        posting: &WrittenPosting<'a>,
    ) -> Result<Outcome<'a>, Refusal<LineFault>>
        requires nothing { self.now.takes.nothing.now ≡ [] }
        requires within { AreWithin holdings.now (takes_in self.now.lines.items) }
        requires taken { is_lot posting.now.details.cost ≡ true
            → HasTaken holdings.now (takes_in self.now.lines.items) self.now.takes }
        requires bounded { IsBounded holdings.now }
        requires few { additions_in holdings.now ≤ 2 ^ 40 }
        requires inside { is_outside_profile posting.now ≡ false }
        ensures comes { (s : Setting) → IsSettled s holdings.now methods.now head
            → ComesOf (IsNext s self.now.lines.items index posting.now) result }
        ensures within { IfOk result (λ outcome. AreWithin holdings.now
            (takes_in self.now.lines.items ++ takes_in (spec.lines_of outcome))) }
    {
        let takes = &self.takes;
        if !is_in_braces(posting) {
            let stock = Stock::of_nothing(takes.nothing, &takes.left, &takes.rests);
            return outcome_of(alloc, stock, head, index, posting);
        }
        let account = posting.account();
        let stock = Stock {
            method: methods.of(account),
            held: holdings.of(account, takes.nothing),
            taken: takes.taken.of(account, takes.nothing),
            left: &takes.left,
            rests: &takes.rests,
        };
        outcome_of(alloc, stock, head, index, posting)
    }

    /// Adds what comes of the next posting.
    fn add_next(
        &mut self,
        alloc: Global,
        holdings: &'s Holdings<'a>,
        methods: &Methods<'a>,
        head: Head,
        index: usize,
        posting: &WrittenPosting<'a>,
    ) -> Result<(), Refusal<LineFault>>
        requires keeping { IsKeeping holdings.now self.old }
        requires bounded { IsBounded holdings.now }
        requires few { additions_in holdings.now ≤ 2 ^ 40 }
        requires inside { is_outside_profile posting.now ≡ false }
        ensures keeping { OnOk result (IsKeeping holdings.now self.new) }
        ensures ok { OnOk result ((s : Setting) → IsSettled s holdings.now methods.now head
            → Adds (IsNext s self.old.lines.items index posting.now)
            self.old.lines.items self.new.lines.items) }
        ensures err { IfErr result (λ stop. (s : Setting)
            → IsSettled s holdings.now methods.now head
            → StopsWith (IsNext s self.old.lines.items index posting.now) stop) }
    {
        self.note_takes(alloc, holdings, posting)?;
        match self.next(alloc, holdings, methods, head, index, posting) {
            Ok(outcome) => {
                self.add(outcome)?;
                Ok(())
            }
            Err(stop) => Err(stop),
        }
    }
}

/// The lines of postings that are in the profile, or the first fault of one; `nothing` stands in for
/// what an account holds that isn't there.
pub(crate) fn line_up<'s, 'a>(
    alloc: Global,
    holdings: &'s Holdings<'a>,
    nothing: &'s Inventory<'a>,
    methods: &Methods<'a>,
    head: Head,
    postings: &[WrittenPosting<'a>],
) -> Result<Vec<Line<'a>>, Refusal<LineFault>>
    requires nothing { nothing.now ≡ [] }
    requires bounded { IsBounded holdings.now }
    requires few { additions_in holdings.now ≤ 2 ^ 40 }
    requires inside { list_any is_outside_profile postings.now ≡ false }
    ensures ok { IfOk result (λ lines. (s : Setting) → IsSettled s holdings.now methods.now head
        → AreLined s (reverse postings.now) lines.items) }
    ensures err { IfErr result (λ stop. (s : Setting)
        → IsSettled s holdings.now methods.now head
        → StopsAt (IsFirstFault s postings.now) stop) }
{
    let mut lines = Lines::new(alloc, nothing);
    for index in 0..postings.len() {
        match lines.add_next(alloc, holdings, methods, head, index, &postings[index]) {
            Ok(()) => {}
            Err(stop) => return Err(stop),
        }
    }
    Ok(lines.into_vec())
}
