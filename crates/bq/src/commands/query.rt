//! `query LEDGER TEXT`: the table of what a query answers over a ledger.
ghost use Rattle.bq.specs.Query as command;
ghost use Rattle.bq.specs.Query.{HasBounds};
ghost use Rattle.bq.specs.Runs.{Finds};
ghost use Rattle.query_rows.specs.ColumnShape.{widest};

use crate::commands::details::details_for;
use crate::commands::ledger::{Question, answer_about};
use crate::commands::table::table_of;
use crate::given::Given;
use crate::text::Text;
use bean_books::book_of;
use bean_load::Texts;
use endings::{Refusal, Verdict};
use limits::{Bounds, MOST_POSTINGS, MOST_UNITS_DIGITS, MOST_VALUE_DIGITS, Version};
use query_files::compiled;
use std::alloc::Global;
use std::mem::forget;
use stores::Source;

/// Each ledger is within these.
const WIDEST: Bounds = Bounds {
    schema: Version::Second,
    postings: MOST_POSTINGS as u32,
    units_digits: MOST_UNITS_DIGITS,
    value_digits: MOST_VALUE_DIGITS,
};

/// What the file of a query's program answers over the postings that texts are booked as.
#[derive(Clone, Copy)]
struct Asking<'f> {
    file: &'f [u8],
    ghost by_widest: { HasBounds widest file.now },
}

impl Question for Asking<'_> {
    ghost use Rattle.bq.specs.Ledgers.{about_book};
    ghost use Rattle.bq.specs.Query.{FileAnswers};

    ghost says = { λ asking. about_book (FileAnswers asking.file.now) };

    fn answer<'w>(&self, alloc: Global, texts: Texts) -> Result<Given<'w>, Refusal> {
        let details = details_for(alloc, self.file)?;
        let ledger = book_of(alloc, &texts, details)?;
        // So its program is never refused for them.
        prove!(ledger.fits(&WIDEST));
        let text = table_of(alloc, self.file, &ledger)?;
        // The process ends soon, and takes all memory back at once.
        forget(ledger);
        Ok(Given::Told(Verdict::Fine, Text::of_table(text)))
    }
}

/// What the query answers over the ledger of that name: it is compiled, and its file is run.
pub fn answer<'w, S: Source>(
    alloc: Global,
    ledger: &str,
    text: &str,
    store: &mut S,
) -> Result<Given<'w>, Refusal>
    ensures { Finds S.Source store.old store.new (command.query.due (ledger.now, text.now)) result }
{
    let file = compiled(alloc, text, &WIDEST)?;
    answer_about(alloc, &Asking { file: &file }, ledger, store)
}
