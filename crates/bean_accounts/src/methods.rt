//! How accounts choose among their lots.
ghost use Rattle.std.specs.Prelude.{◌≡◌, List, ℕ, OnOk, if◌then◌else◌};
ghost use Rattle.std.specs.Str.{bytes_eq};
ghost use Rattle.bean_accounts.specs.Methods.{method_in};

use bean_base::Account;
use bean_reductions::Method;
use indexmap::IndexMap;
use std::alloc::{AllocError, Global};

/// The booking method of each account.
pub struct Methods<'a> {
    methods: IndexMap<Account<'a>, Method>,
    otherwise: Method,
}

/// Written out, so that what gives one up needs to know nothing of what is in it.
impl Drop for Methods<'_> {
    fn drop(self) {
        let Methods {
            methods: _,
            otherwise: _,
        } = self;
    }
}

impl<'a> Methods<'a> {
    /// One method for all accounts. Takes no memory.
    pub fn new(alloc: Global, otherwise: Method) -> Methods<'a>
        ensures { (a : List ℕ) → method_in result a ≡ otherwise }
    {
        Methods {
            methods: IndexMap::new(alloc),
            otherwise,
        }
    }

    /// The method of an account.
    pub fn of(&self, account: &Account<'a>) -> Method
        ensures { result ≡ method_in self.now account.now }
    {
        match self.methods.get(account) {
            Some(method) => *method,
            None => self.otherwise,
        }
    }

    /// Gives an account a method of its own.
    pub fn set(&mut self, account: Account<'a>, method: Method) -> Result<(), AllocError>
        ensures { OnOk result ((a : List ℕ) → method_in self.new a
            ≡ (if bytes_eq account.entry a then method else method_in self.old a)) }
    {
        match self.methods.insert(account, method) {
            Ok(_) => Ok(()),
            Err(_) => Err(AllocError),
        }
    }
}
