//! `show FILE`: the listing of a query file.
ghost use Rattle.bq.specs.Due.{ComesTo};
ghost use Rattle.bq.specs.Runs.{Finds};
ghost use Rattle.bq.specs.Show.{Shows, show};

use crate::commands::file::file_bytes;
use crate::given::Given;
use crate::text::Text;
use endings::{Refusal, Verdict};
use query_files::listing;
use std::alloc::Global;
use stores::Source;

/// The listing of the program whose file the bytes are.
fn listing_of<'w>(alloc: Global, bytes: &[u8]) -> Result<Given<'w>, Refusal>
    ensures { ComesTo (Shows bytes.now) result }
{
    let text = listing(alloc, bytes)?;
    Ok(Given::Told(Verdict::Fine, Text::new(text)))
}

/// The listing of the query file of that name.
pub fn answer<'w, S: Source>(alloc: Global, file: &str, store: &mut S) -> Result<Given<'w>, Refusal>
    ensures { Finds S.Source store.old store.new (show.due file.now) result }
{
    let bytes = file_bytes(store, file)?;
    listing_of(alloc, &bytes)
}
