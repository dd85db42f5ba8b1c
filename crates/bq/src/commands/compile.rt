//! `compile TEXT FILE`: the file of a query's program.
ghost use Rattle.std.specs.Prelude.{[]};
ghost use Rattle.bq.specs.Compile as command;
ghost use Rattle.requests.specs.Compile as words;
ghost use Rattle.bq.specs.Due.{ComesTo};
ghost use Rattle.query_rows.specs.ColumnShape.{AreBounds};

use crate::given::Given;
use bean_base::{List, Slice};
use endings::Refusal;
use limits::Bounds;
use query_files::compiled;
use std::alloc::Global;

/// The file of the program of the query that a text is, to be kept under that name.
pub fn answer<'w>(
    alloc: Global,
    text: &str,
    file: Slice<'w>,
    bounds: &Bounds,
) -> Result<Given<'w>, Refusal>
    requires { AreBounds bounds.now }
    ensures { ComesTo (command.compile.due (words.words_of text.now file.entry bounds.now) [])
        result }
{
    let bytes = compiled(alloc, text, bounds)?;
    Ok(Given::Kept(file, List::new(bytes)))
}
