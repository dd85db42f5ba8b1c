//! `upgrade OLD NEW`: the file of a program, brought to the second version.
ghost use Rattle.std.specs.Prelude.{[]};
ghost use Rattle.bq.specs.Due.{ComesTo, at_once};
ghost use Rattle.bq.specs.Runs.{Finds};
ghost use Rattle.bq.specs.Upgrade.{Upgrades};
ghost use Rattle.bq.specs.Upgrade as command;
ghost use Rattle.bq.specs.Verified.{about_program};

use crate::commands::file::file_bytes;
use crate::given::Given;
use bean_base::{List, Slice};
use endings::Refusal;
use query_files::upgraded;
use std::alloc::Global;
use stores::Source;

/// The file, under the new name, of the program whose file the bytes are.
fn answer_of<'w>(alloc: Global, bytes: &[u8], new: Slice<'w>) -> Result<Given<'w>, Refusal>
    ensures { ComesTo (about_program (λ p depth. at_once (Upgrades new.entry p)) bytes.now []) result }
{
    let file = upgraded(alloc, bytes)?;
    Ok(Given::Kept(new, List::new(file)))
}

/// The new file of the query file of the old name.
pub fn answer<'w, S: Source>(
    alloc: Global,
    old: &str,
    new: Slice<'w>,
    store: &mut S,
) -> Result<Given<'w>, Refusal>
    ensures { Finds S.Source store.old store.new (command.upgrade.due (old.now, new.entry)) result }
{
    let bytes = file_bytes(store, old)?;
    answer_of(alloc, &bytes, new)
}
