//! Laws of books.
ghost use Rattle.bean_book.specs.Booked.{IsBookOf};
ghost use Rattle.bean_book.specs.LeftOut.{DetailsRefuseNothing, OnlyDetailsAreLeftOut};
ghost use Rattle.bean_book.specs.OneBook.{AreAlike};
ghost use Rattle.bean_book.specs.Book as declared;
ghost use Rattle.bean_book.specs.declared.details.Details as levels;
ghost use Rattle.bean_loaded.specs.Loaded.{Loaded};

/// A loaded ledger is booked in one way, however much is told: the postings, the decimals that
/// currencies show, and the faults.
pub fn one_book()
    ensures { (details : levels.Details) (l : Loaded) (a b : declared.Book)
        → IsBookOf details l a → IsBookOf details l b → AreAlike a b }
{}

/// What a ledger is booked as with few details is what it is booked as with all of them, but for
/// those that aren't told.
pub fn only_details_are_left_out()
    ensures { OnlyDetailsAreLeftOut }
{}

/// What is refused with some details is refused with any others.
pub fn details_refuse_nothing()
    ensures { DetailsRefuseNothing }
{}
