//! Laws of the books of texts.
ghost use Rattle.bean_books.specs.Booking.{DetailsRefuseNothing, OnlyDetailsAreLeftOut};

/// The book of texts with few details is their book with all of them, but for those that aren't told.
pub fn only_details_are_left_out()
    ensures { OnlyDetailsAreLeftOut }
{}

/// What is refused with some details is refused with any others.
pub fn details_refuse_nothing()
    ensures { DetailsRefuseNothing }
{}
