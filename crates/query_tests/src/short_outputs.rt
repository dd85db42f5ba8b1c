//! Outputs of memory, and tables that are written to them.
ghost use Rattle.std.specs.Prelude.{◌≡◌, [], IfOk};

use bean_base::{List, Slice};
use outputs::ShortWriter;
use posting_table::Display;
use query_answer::AnswerRows;
use refusals::Refusal;
use std::alloc::{AllocError, Global};
use std::test::Fail;
use table_printer::{Answer, AnswerTable, PrintCause, write_table};

/// An answer without rows.
fn head(alloc: Global) -> Result<Answer<'static>, AllocError>
    ensures { IfOk result (λ answer. answer.rows ≡ []) }
{
    let mut headers = Vec::new(alloc);
    for name in ["date", "flag", "account", "position"] {
        headers.push(Slice::new(name))?;
    }
    Ok(Answer {
        headers: List::new(headers),
        rows: AnswerRows::new(alloc),
        steps: 0,
        groups: 0,
    })
}

#[test]
fn a_short_table_is_told_with_its_count(rt: HostRuntime) -> Result<(), Fail> {
    let alloc = rt.alloc();
    let answer = head(alloc)?;
    let display = Display::new(alloc);
    let mut out = ShortWriter::new(alloc, 5);
    let written = write_table(alloc, &AnswerTable::of(&answer), &display, &mut out);
    let cause = PrintCause::NotWritten { written: 5 };
    assert!(rt; written.err() == Some(Refusal::Refused(cause)));
    assert!(rt; out.taken() == b"date ".as_slice());
    Ok(())
}
