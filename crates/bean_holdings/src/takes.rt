//! What a transaction takes of lots.
ghost use Rattle.std.specs.Prelude.{◌≡◌, ◌≤◌, ◌^◌, ◌++◌, ◌∷◌, [], List, OnOk};
ghost use Rattle.bean_holdings.specs.Holdings.{IsBounded, additions_in};
ghost use Rattle.bean_holdings.specs.Takes.{AreWithin, HasTaken};
ghost use Rattle.bean_holdings.specs.declared.holdings.Holdings as declared;

use crate::holdings::Holdings;
use crate::inventories::Inventories;
use crate::lots_left::LotsLeft;
use crate::posted::Posted;
use crate::rests::{Rests, without_gone};
use bean_inventories::Inventory;
use std::alloc::{AllocError, Global};

/// What takes come to in each account, which lots they leave there, and where these stand.
pub struct Takes<'a, 's> {
    pub taken: Inventories<'a>,
    pub left: LotsLeft<'a>,
    pub rests: Rests<'a, 's>,
    /// What an account holds that isn't there.
    pub nothing: &'s Inventory<'a>,
}

/// Written out, so that what gives one up needs to know nothing of what is in it.
impl Drop for Takes<'_, '_> {
    fn drop(self) {
        let Takes {
            taken: _,
            left: _,
            rests: _,
            nothing: _,
        } = self;
    }
}

impl<'a, 's> Takes<'a, 's> {
    /// No takes. Takes no memory.
    pub fn none(alloc: Global, nothing: &'s Inventory<'a>) -> Takes<'a, 's>
        requires { nothing.now ≡ [] }
        ensures { (h : declared.Holdings) → HasTaken h [] result }
    {
        Takes {
            taken: Inventories::new(alloc),
            left: LotsLeft::new(alloc),
            rests: Rests::new(alloc),
            nothing,
        }
    }

    /// Adds a take.
    pub fn add(
        &mut self,
        alloc: Global,
        holdings: &'s Holdings<'a>,
        take: &Posted<'a>,
    ) -> Result<(), AllocError>
        requires bounded { IsBounded holdings.now }
        requires few { additions_in holdings.now ≤ 2 ^ 40 }
        requires within { (ps : List Posted) × HasTaken holdings.now ps self.old
            × AreWithin holdings.now (ps ++ take.now ∷ []) }
        ensures { (ps : List Posted) → HasTaken holdings.now ps self.old
            → AreWithin holdings.now (ps ++ take.now ∷ [])
            → OnOk result (HasTaken holdings.now (ps ++ take.now ∷ []) self.new) }
    {
        let key = take.key();
        let held = holdings.of(&take.account, self.nothing);
        let taken = self.taken.of(&take.account, self.nothing);
        let count = take.units.number.scaled(8);
        self.left.note(&take.account, held, taken, &key, count)?;
        let rest = self.rests.before_take(&take.account, held, taken, &key);
        self.taken.post(alloc, take, 0)?;
        match rest {
            Some(rest) => {
                let taken = self.taken.of(&take.account, self.nothing);
                self.rests
                    .set(take.account.lend(), without_gone(rest, taken))
            }
            None => Ok(()),
        }
    }
}
