//! The book of texts.
ghost use Rattle.bean_books.specs.Booking.{Books, FindsFaults};

use bean_base::{Fault, List};
use bean_book::{BookCause, Details, book, find_faults};
use bean_load::{Texts, load};
use posting_table::Ledger;
use refusals::Refusal;
use std::alloc::Global;

/// The postings in the book of texts, with so much told of them, and the decimals that currencies show.
pub fn book_of<'a>(
    alloc: Global,
    texts: &'a Texts,
    details: Details,
) -> Result<Ledger<'a>, Refusal<BookCause>>
    ensures { Books details texts.now result }
{
    let loaded = load(alloc, texts)?;
    book(alloc, loaded, details)
}

/// The faults in the book of texts.
pub fn faults_in(alloc: Global, texts: &Texts) -> Result<List<Fault>, Refusal<BookCause>>
    ensures { FindsFaults texts.now result }
{
    let loaded = load(alloc, texts)?;
    find_faults(alloc, loaded)
}
