//! `verify FILE`: whether a query file is accepted, and how long and how deep its program is.
ghost use Rattle.std.specs.Prelude.{◌≡◌, [], IfOk};
ghost use Rattle.bq.specs.Due.{ComesTo, at_once};
ghost use Rattle.bq.specs.Runs.{Finds};
ghost use Rattle.bq.specs.Verified.{about_program};
ghost use Rattle.bq.specs.Verify.{Verifies, line_by, verify};

use crate::commands::file::file_bytes;
use crate::given::Given;
use crate::text::Text;
use endings::{Refusal, Verdict};
use itoa::Buffer;
use query_files::{Outline, outlined};
use std::alloc::{AllocError, Global};
use stores::Source;

/// The line that tells the depth of a program's stack and the lengths of its sections.
fn line(alloc: Global, outline: Outline) -> Result<Vec<u8>, AllocError>
    ensures { IfOk result (λ text. text.items
        ≡ line_by outline.depth outline.filter outline.row outline.last) }
{
    let mut line = String::new(alloc);
    line.push_str("accepted depth ")?;
    line.push_str(Buffer::new().format(outline.depth))?;
    line.push_str(" filter ")?;
    line.push_str(Buffer::new().format(outline.filter))?;
    line.push_str(" row ")?;
    line.push_str(Buffer::new().format(outline.row))?;
    line.push_str(" last ")?;
    line.push_str(Buffer::new().format(outline.last))?;
    line.push_str("\n")?;
    Ok(line.into_bytes())
}

/// The line of the program whose file the bytes are.
fn verdict_on<'w>(alloc: Global, bytes: &[u8]) -> Result<Given<'w>, Refusal>
    ensures { ComesTo (about_program (λ p depth. at_once (Verifies p depth)) bytes.now []) result }
{
    let outline = outlined(alloc, bytes)?;
    let text = line(alloc, outline)?;
    Ok(Given::Told(Verdict::Fine, Text::new(text)))
}

/// The line of the query file of that name.
pub fn answer<'w, S: Source>(alloc: Global, file: &str, store: &mut S) -> Result<Given<'w>, Refusal>
    ensures { Finds S.Source store.old store.new (verify.due file.now) result }
{
    let bytes = file_bytes(store, file)?;
    verdict_on(alloc, &bytes)
}
