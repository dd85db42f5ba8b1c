//! Laws of booking.
ghost use Rattle.std.specs.Prelude.{◌≡◌, List, reverse, ℕ};
ghost use Rattle.bean_replay.specs.Booked.{bookings_of, faults_of, method_in_ledger};
ghost use Rattle.bean_replay.specs.Stand.{LeadsTo, Stand};
ghost use Rattle.bean_directives.specs.declared.directive.Directive.{Directive};
ghost use Rattle.bean_loaded.specs.Loaded.{Loaded};
ghost use Rattle.bean_loaded.specs.declared.placed.Placed.{Placed};
ghost use Rattle.bean_reductions.specs.declared.reduction.Method.{Method};

/// A loaded ledger is booked in one way: the directives lead to one stand, which has what is booked,
/// what pads and balances see, and the faults.
pub fn one_booking()
    ensures { (l : Loaded) (a b : Stand) → LeadsTo (method_in_ledger l) (reverse l.directives) a
        → LeadsTo (method_in_ledger l) (reverse l.directives) b
        → (a ≡ b) × (bookings_of a ≡ bookings_of b) × (faults_of l a ≡ faults_of l b) }
{}

/// Directives lead to a booking, with too many postings or not: that they lead to none can't be.
pub fn directives_lead_to_a_booking()
    ensures { (method_of : List ℕ → Method) (past : List (Placed Directive))
        → ¬ ((stand : Stand) → ¬ LeadsTo method_of past stand) }
{}
