//! What a ledger is booked as is no larger than one of its texts may be.
//!
//! Booking writes no texts of its own. A booked posting has the account of a written one. Its
//! currency is that of written units, or one in which its transaction weighs: of units, of a cost,
//! of a price. Its lot is that of its braces, or one that is taken of what the account holds, and so
//! that of a posting which was booked before. A pad has the accounts and the line of its directive,
//! and what comes of it the currencies of balances. So none of this grows, however long a ledger is.
ghost use Rattle.std.specs.Prelude.{ℕ, List};
ghost use Rattle.std.specs.List.{AllByRecursion};
ghost use Rattle.bean_replay.specs.Booked.{bookings_of};
ghost use Rattle.bean_replay.specs.Stand.{LeadsTo, Stand};
ghost use Rattle.bean_directives.specs.declared.directive.Directive.{Directive};
ghost use Rattle.bean_loaded.specs.declared.placed.Placed.{Placed};
ghost use Rattle.bean_reductions.specs.declared.reduction.Method.{Method};
ghost use Rattle.bean_replay.specs.Small.{IsSmallBooking};
ghost use Rattle.bean_loaded.specs.Limited.{IsSmall};

/// What is booked of small directives is small.
pub fn booked_ledgers_are_small()
    ensures { (m : List ℕ → Method) (past : List (Placed Directive)) (st : Stand)
        → LeadsTo m past st → AllByRecursion IsSmall past
        → AllByRecursion IsSmallBooking (bookings_of st) }
{}
