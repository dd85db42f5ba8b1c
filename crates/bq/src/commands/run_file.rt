//! `run FILE LEDGER`: the table of what a query file answers over a ledger.
ghost use Rattle.bq.specs.RunFile as command;
ghost use Rattle.bq.specs.Runs.{Finds};

use crate::commands::details::details_for;
use crate::commands::file::file_bytes;
use crate::commands::ledger::{Question, answer_about};
use crate::commands::table::table_of;
use crate::given::Given;
use crate::text::Text;
use bean_books::book_of;
use bean_load::Texts;
use endings::{Refusal, Verdict};
use query_files::outlined;
use std::alloc::Global;
use std::mem::forget;
use stores::Source;

/// What a query file that is accepted answers over the postings that texts are booked as.
#[derive(Clone, Copy)]
struct Running<'f> {
    file: &'f [u8],
}

impl Question for Running<'_> {
    ghost use Rattle.bq.specs.Ledgers.{about_book};
    ghost use Rattle.bq.specs.Ran.{FileRan};

    ghost says = { λ running. about_book (FileRan running.file.now) };

    fn answer<'w>(&self, alloc: Global, texts: Texts) -> Result<Given<'w>, Refusal> {
        let details = details_for(alloc, self.file)?;
        let ledger = book_of(alloc, &texts, details)?;
        let text = table_of(alloc, self.file, &ledger)?;
        // The process ends soon, and takes all memory back at once.
        forget(ledger);
        Ok(Given::Told(Verdict::Fine, Text::of_table(text)))
    }
}

/// What the query file of these bytes answers over the ledger of that name.
fn answer_of<'w, S: Source>(
    alloc: Global,
    bytes: &[u8],
    ledger: &str,
    store: &mut S,
) -> Result<Given<'w>, Refusal>
    ensures { Finds S.Source store.old store.new (command.of_bytes ledger.now bytes.now) result }
{
    outlined(alloc, bytes)?;
    answer_about(alloc, &Running { file: bytes }, ledger, store)
}

/// What the query file of that name answers over the ledger of that name.
pub fn answer<'w, S: Source>(
    alloc: Global,
    file: &str,
    ledger: &str,
    store: &mut S,
) -> Result<Given<'w>, Refusal>
    ensures { Finds S.Source store.old store.new (command.run.due (file.now, ledger.now)) result }
{
    let bytes = file_bytes(store, file)?;
    answer_of(alloc, &bytes, ledger, store)
}
