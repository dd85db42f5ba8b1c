//! Laws of trials.
ghost use Rattle.std.specs.Prelude.{◌≡◌, List, Ok, Result};
ghost use Rattle.std.specs.List.{AllByRecursion};
ghost use Rattle.bean_interp.specs.Residual.{IsLight};
ghost use Rattle.bean_postings.specs.declared.posting.Posting.{Posting};
ghost use Rattle.bean_transactions.specs.Lined.{Setting};
ghost use Rattle.bean_transactions.specs.Tried.{Tries, booked_legs};
ghost use Rattle.bean_holdings.specs.declared.posted.Posted.{Posted};
ghost use Rattle.bean_transactions.specs.declared.stop.LineFault.{LineFault};

/// One thing comes of a transaction: its postings, or its fault.
pub fn one_trial()
    ensures { (s : Setting) (ps : List Posting) (r t : Result (List Posted) LineFault)
        → Tries s ps r → Tries s ps t → r ≡ t }
{}

/// Something comes of each transaction: that nothing does can't be.
pub fn each_transaction_is_tried()
    ensures { (s : Setting) (ps : List Posting)
        → ¬ ((r : Result (List Posted) LineFault) → ¬ Tries s ps r) }
{}

/// Each posting that a kept transaction is booked as weighs less than `10^28`.
pub fn kept_postings_are_light()
    ensures { (s : Setting) (ps : List Posting) (posted : List Posted) → Tries s ps (Ok posted)
        → AllByRecursion IsLight (booked_legs ps posted) }
{}
