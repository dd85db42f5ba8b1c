//! The five accounts that all others stand under.
ghost use Rattle.std.specs.Prelude.{◌≡◌};
ghost use Rattle.bean_base.specs.Root.{root_of};

/// What an account may begin with, in the order in which a report shows them.
#[derive(Clone, Copy, Drop, PartialEq, Eq, PartialOrd, Ord, Hash)]
pub enum Root {
    Assets,
    Liabilities,
    Equity,
    Income,
    Expenses,
}

impl Root {
    /// The root that a component is, if it is one.
    pub fn of(component: &str) -> Option<Root>
        ensures { result ≡ root_of component.now }
    {
        match component {
            "Assets" => Some(Root::Assets),
            "Liabilities" => Some(Root::Liabilities),
            "Equity" => Some(Root::Equity),
            "Income" => Some(Root::Income),
            "Expenses" => Some(Root::Expenses),
            _ => None,
        }
    }
}
