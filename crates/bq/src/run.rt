//! What the program does with its words.
ghost use Rattle.std.specs.Prelude.{◌≡◌, map};
ghost use Rattle.bq.specs.Keeping.{Keeps, store_of};
ghost use Rattle.bq.specs.Runs.{written, written_at_once, deeds, WritesText, Runs, Ends};
ghost use Rattle.bq.specs.Runs.{HaveOneEnd, RefusesExactly, StatusesTell};

use crate::commands::find;
use crate::given::Given;
use crate::text::Text;
use endings::{Refusal, Verdict};
use outputs::{Output, write_bytes};
use std::alloc::Global;
use stores::{SourceFault, Store};

/// Writes a text.
fn write_text<O: Output>(text: &Text, out: &mut O) -> Result<(), Refusal>
    ensures { WritesText (written O.Output out.old out.new) text.now result }
{
    let written = text.write(out);
    if written < text.len() {
        return Err(Refusal::NotWritten(written as u64));
    }
    Ok(())
}

/// Keeps a file.
fn keep_file<S: Store>(name: &str, bytes: &[u8], store: &mut S) -> Result<(), Refusal>
    ensures { Keeps (store_of S.Source S.kept S.may_keep) store.old store.new name.now bytes.now result }
{
    match store.put(name, bytes) {
        Ok(()) => Ok(()),
        Err(SourceFault::Failed) => Err(Refusal::NotKept),
        Err(SourceFault::OutOfMemory) => Err(Refusal::OutOfMemory),
    }
}

/// Does what the words say.
fn run<S: Store, O: Output>(
    alloc: Global,
    words: &[&str],
    store: &mut S,
    out: &mut O,
) -> Result<Verdict, Refusal>
    ensures { Runs (deeds (store_of S.Source S.kept S.may_keep) store.old store.new
        (written O.Output out.old out.new))
        (map (λ w. w.now) words.now) result }
{
    let given = find(alloc, words, store)?;
    match given {
        Given::Told(verdict, text) => {
            write_text(&text, out)?;
            Ok(verdict)
        }
        Given::Kept(name, bytes) => {
            keep_file(name.text(), bytes.as_slice(), store)?;
            Ok(Verdict::Fine)
        }
    }
}

/// Runs the program on its words, without its own name: the answer goes to `out` or, where it is a
/// file, to the store, and where there is none one line that says why to `err`. The status is 0
/// where it answered, 1 where the answer is that books have faults, 2 where the words or the input
/// are refused, 3 where reading or writing failed and 4 where memory lacked; 2 and 4 also where the
/// answer says so of one of several programs.
pub fn run_words<S: Store, O: Output, E: Output>(
    alloc: Global,
    words: &[&str],
    store: &mut S,
    out: &mut O,
    err: &mut E,
) -> u8
    ensures { Ends (deeds (store_of S.Source S.kept S.may_keep) store.old store.new
        (written O.Output out.old out.new))
        (written_at_once E.Output err.old err.new) (map (λ w. w.now) words.now) result }
{
    match run(alloc, words, store, out) {
        Ok(verdict) => verdict.status(),
        Err(refusal) => {
            // The status stands even where the line can't be written.
            let _ = write_bytes(err, refusal.line().as_bytes());
            refusal.status()
        }
    }
}

/// What is asked for and what the store gave decide what is due: the answer, or the cause of a
/// refusal. (Which cause is told of a program that isn't well shaped, whether a pattern is built,
/// and for which of several programs memory lacked is not said.)
pub fn one_end_is_due()
    ensures { HaveOneEnd }
{}

/// Want of memory and patterns aside, each refusal comes exactly where its cause holds; and the
/// statuses 0 and 1 tell that there is an answer, and what it says of books.
pub fn refuses_exactly()
    ensures exactly { RefusesExactly }
    ensures told { StatusesTell }
{}
