//! The booked postings of a transaction.
ghost use Rattle.std.specs.Prelude.{◌≡◌, ◌<◌, ◌≤◌, ◌+◌, ◌^◌, ◌∷◌, ◌++◌, [], IfOk, OnOk, length};
ghost use Rattle.std.specs.Prelude.{not, slice_get};
ghost use Rattle.std.specs.Prelude as prelude;
ghost use Rattle.std.specs.List.{AllByRecursion, flat_map};
ghost use Rattle.bean_accounts.specs.Faults.{faults_at, kind_if};
ghost use Rattle.bean_accounts.specs.Kept.{IsKept};
ghost use Rattle.bean_accounts.specs.Log.{with_found};
ghost use Rattle.bean_accounts.specs.declared.step.Step as lives;
ghost use Rattle.bean_replay.specs.Stand as spec;
ghost use Rattle.bean_interp.specs.Balance.{is_balanced};
ghost use Rattle.bean_holdings.specs.Holdings.{AreHeld, IsBounded, additions_in};
ghost use Rattle.bean_holdings.specs.declared.posted.Posted as declared;
ghost use Rattle.bean_interp.specs.Residual.{IsLight};
ghost use Rattle.bean_transactions.specs.Tried.{KnowsBalance, booked_legs};

use bean_accounts::{Accounts, FaultLog};
use bean_base::{Fault, FaultKind, Place};
use bean_holdings::{Holdings, Posted};
use bean_interp::Scales;
use bean_postings::WrittenPosting;
use bean_transactions::{Tried, balances};
use std::alloc::{AllocError, Global};

/// The place of a posting of a transaction at a place.
fn place_in(at: Place, postings: &[WrittenPosting<'_>], written: usize) -> Place
    ensures { result ≡ spec.place_in at (slice_get postings.now written) }
{
    match postings.get(written) {
        Some(posting) => Place {
            line: posting.line(),
            ..at
        },
        None => at,
    }
}

/// Adds the faults of a booked posting, and the posting to what its account holds. Its account is
/// named as the open of the account wrote it then. The account's place among those that were opened
/// tells it apart from others where it holds something.
fn book_posting<'a>(
    alloc: Global,
    accounts: &mut Accounts<'a>,
    holdings: &mut Holdings<'a>,
    faults: &mut FaultLog,
    at: Place,
    postings: &[WrittenPosting<'a>],
    posted: &mut Posted<'a>,
) -> Result<(), AllocError>
    requires bounded { IsBounded holdings.old }
    requires few { additions_in holdings.old < 2 ^ 40 }
    ensures posted { posted.new ≡ posted.old }
    ensures kept { (past : prelude.List lives.Step) → IsKept past accounts.old
        → IsKept past accounts.new }
    ensures faults { (past : prelude.List lives.Step) → IsKept past accounts.old
        → OnOk result (faults.new
        ≡ with_found (spec.posted_faults past at postings.now posted.old) faults.old) }
    ensures held { OnOk result ((ps : prelude.List declared.Posted) → AreHeld ps holdings.old
        → AreHeld (ps ++ posted.old ∷ []) holdings.new) }
    ensures bounded { OnOk result (IsBounded holdings.new) }
    ensures additions { OnOk result (additions_in holdings.new ≡ additions_in holdings.old + 1) }
{
    let at = place_in(at, postings, posted.written);
    let near = accounts.note_posting(&mut posted.account, &posted.units.currency, at, faults)?;
    holdings.post(alloc, posted, near)
}

/// Adds the faults of all booked postings of a transaction, and the postings to what their accounts
/// hold, which are named as they were opened.
pub(crate) fn book_postings<'a>(
    alloc: Global,
    accounts: &mut Accounts<'a>,
    holdings: &mut Holdings<'a>,
    faults: &mut FaultLog,
    at: Place,
    postings: &[WrittenPosting<'a>],
    posted: &mut [Posted<'a>],
) -> Result<(), AllocError>
    requires bounded { IsBounded holdings.old }
    requires few { additions_in holdings.old + length posted.old ≤ 2 ^ 40 }
    ensures posted { OnOk result (posted.new ≡ posted.old) }
    ensures kept { (past : prelude.List lives.Step) → IsKept past accounts.old
        → IsKept past accounts.new }
    ensures faults { (past : prelude.List lives.Step) → IsKept past accounts.old
        → OnOk result (faults.new
        ≡ with_found (flat_map (spec.posted_faults past at postings.now) posted.old) faults.old) }
    ensures held { OnOk result ((ps : prelude.List declared.Posted) → AreHeld ps holdings.old
        → AreHeld (ps ++ posted.old) holdings.new) }
    ensures bounded { OnOk result (IsBounded holdings.new) }
    ensures additions { OnOk result
        (additions_in holdings.new ≡ additions_in holdings.old + length posted.old) }
{
    for index in 0..posted.len() {
        book_posting(
            alloc,
            accounts,
            holdings,
            faults,
            at,
            postings,
            &mut posted[index],
        )?;
    }
    Ok(())
}

/// Whether a transaction balances by the postings that it is booked as. It is weighed where its
/// trial didn't.
fn balances_as<'a>(
    scales: &mut Scales<'a>,
    postings: &[WrittenPosting<'a>],
    tried: &Tried<'a>,
) -> Result<bool, AllocError>
    requires few { length tried.now.posted ≤ 10 ^ 9 }
    requires light { AllByRecursion IsLight (booked_legs postings.now tried.now.posted) }
    requires balances { KnowsBalance postings.now tried.now }
    ensures { IfOk result (λ b. b ≡ is_balanced (booked_legs postings.now tried.now.posted)) }
{
    match tried.balances {
        Some(balances) => Ok(balances),
        None => balances(scales, postings, tried.posted.as_slice()),
    }
}

/// Adds F18 where a transaction doesn't balance. Where nobody asks for faults it isn't weighed.
pub(crate) fn note_balance<'a>(
    scales: &mut Scales<'a>,
    faults: &mut FaultLog,
    at: Place,
    postings: &[WrittenPosting<'a>],
    tried: &Tried<'a>,
) -> Result<(), AllocError>
    requires few { length tried.now.posted ≤ 10 ^ 9 }
    requires light { AllByRecursion IsLight (booked_legs postings.now tried.now.posted) }
    requires balances { KnowsBalance postings.now tried.now }
    ensures { OnOk result (faults.new ≡ with_found (faults_at at
        (kind_if (not (is_balanced (booked_legs postings.now tried.now.posted)))
        FaultKind.Unbalanced)) faults.old) }
{
    if !faults.is_kept() {
        return Ok(());
    }
    if !balances_as(scales, postings, tried)? {
        faults.add(Fault {
            kind: FaultKind::Unbalanced,
            place: at,
        })?;
    }
    Ok(())
}
