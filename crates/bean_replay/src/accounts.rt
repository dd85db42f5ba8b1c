//! Directives on accounts.
ghost use Rattle.std.specs.Prelude.{◌≡◌, ◌<◌, ◌+◌, ◌^◌, ◌∷◌, ◌++◌, OnOk};
ghost use Rattle.std.specs.Prelude as prelude;
ghost use Rattle.bean_accounts.specs.Faults.{faults_at, of_close, of_open, of_use};
ghost use Rattle.bean_accounts.specs.Kept.{IsKept};
ghost use Rattle.bean_accounts.specs.Log.{with_found};
ghost use Rattle.bean_accounts.specs.declared.step.Step as lives;
ghost use Rattle.bean_accounts.specs.declared.step.Step.TheVariants as life;
ghost use Rattle.bean_lots.specs.Inventory.{has_lot};
ghost use Rattle.bean_pad.specs.Following.{Follows, IsBounded, steps_in};
ghost use Rattle.bean_pad.specs.declared.step.Step.{Step};
ghost use Rattle.bean_pad.specs.declared.step.Step.TheVariants as step;
ghost use Rattle.bean_holdings.specs.Holdings.{holding};

use bean_accounts::{Accounts, FaultLog};
use bean_base::{Day, Place};
use bean_directives::{Balance, Close, Open, Pad};
use bean_holdings::Holdings;
use bean_inventories::Inventory;
use bean_pad::Padder;
use std::alloc::{AllocError, Global};

/// Takes an open that is written at a place.
pub(crate) fn take_open<'a>(
    alloc: Global,
    accounts: &mut Accounts<'a>,
    faults: &mut FaultLog,
    at: Place,
    opening: &Open<'a>,
) -> Result<(), AllocError>
    ensures kept { (past : prelude.List lives.Step) → IsKept past accounts.old
        → OnOk result (IsKept (life.Open opening.now.account opening.now.currencies ∷ past)
        accounts.new) }
    ensures faults { (past : prelude.List lives.Step) → IsKept past accounts.old
        → OnOk result (faults.new
        ≡ with_found (faults_at at (of_open opening.now.account opening.now.method past))
        faults.old) }
{
    accounts.note_open(&opening.account, &opening.method, at, faults)?;
    accounts.open(alloc, &opening.account, opening.currencies.as_slice())
}

/// Takes a close that is written at a place.
pub(crate) fn take_close<'a>(
    accounts: &mut Accounts<'a>,
    faults: &mut FaultLog,
    at: Place,
    close: &Close<'a>,
) -> Result<(), AllocError>
    ensures kept { (past : prelude.List lives.Step) → IsKept past accounts.old
        → OnOk result (IsKept (life.Close close.now.account ∷ past) accounts.new) }
    ensures faults { (past : prelude.List lives.Step) → IsKept past accounts.old
        → OnOk result (faults.new
        ≡ with_found (faults_at at (of_close close.now.account past)) faults.old) }
{
    accounts.note_close(&close.account, at, faults)?;
    accounts.close(&close.account);
    Ok(())
}

/// Takes a pad that is written at a place.
pub(crate) fn take_pad<'a>(
    accounts: &Accounts<'a>,
    padder: &mut Padder<'a>,
    faults: &mut FaultLog,
    day: Day,
    at: Place,
    pad: &Pad<'a>,
) -> Result<(), AllocError>
    requires near { IsBounded padder.old }
    requires few { steps_in padder.old < 2 ^ 40 }
    ensures faults { (past : prelude.List lives.Step) → IsKept past accounts.now
        → OnOk result (faults.new ≡ with_found (faults_at at (of_use pad.now.account past)
        ++ faults_at at (of_use pad.now.source past)) faults.old) }
    ensures follows { OnOk result ((past : prelude.List Step) → Follows past padder.old
        → Follows (step.Pad pad.now day at ∷ past) padder.new) }
    ensures near { OnOk result (IsBounded padder.new) }
    ensures steps { OnOk result (steps_in padder.new ≡ steps_in padder.old + 1) }
{
    accounts.note_use(&pad.account, at, faults)?;
    accounts.note_use(&pad.source, at, faults)?;
    let pad = Pad {
        account: pad.account.lend(),
        source: pad.source.lend(),
    };
    padder.pad(pad, day, at)
}

/// Whether the account of a balance itself holds a lot of its currency.
fn is_at_cost<'a>(alloc: Global, holdings: &Holdings<'a>, balance: &Balance<'a>) -> bool
    ensures { result ≡ has_lot balance.now.currency (holding holdings.now balance.now.account) }
{
    let nothing = Inventory::new(alloc);
    let held = holdings.of(&balance.account, &nothing);
    held.has_lot(&balance.currency)
}

/// Takes a balance that is written at a place.
pub(crate) fn take_balance<'a>(
    alloc: Global,
    accounts: &Accounts<'a>,
    holdings: &Holdings<'a>,
    padder: &mut Padder<'a>,
    faults: &mut FaultLog,
    at: Place,
    balance: &Balance<'a>,
) -> Result<(), AllocError>
    requires near { IsBounded padder.old }
    requires few { steps_in padder.old < 2 ^ 40 }
    ensures faults { (past : prelude.List lives.Step) → IsKept past accounts.now
        → OnOk result (faults.new
        ≡ with_found (faults_at at (of_use balance.now.account past)) faults.old) }
    ensures follows { OnOk result ((past : prelude.List Step) → Follows past padder.old
        → Follows (step.Balance balance.now at
        (has_lot balance.now.currency (holding holdings.now balance.now.account)) ∷ past)
        padder.new) }
    ensures near { OnOk result (IsBounded padder.new) }
    ensures steps { OnOk result (steps_in padder.new ≡ steps_in padder.old + 1) }
{
    accounts.note_use(&balance.account, at, faults)?;
    let is_at_cost = is_at_cost(alloc, holdings, balance);
    padder.balance(balance, at, is_at_cost)
}
