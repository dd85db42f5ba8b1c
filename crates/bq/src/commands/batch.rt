//! `batch K LEDGER FILE..`: what query files answer over a ledger, in turns of K steps each.
ghost use Rattle.std.specs.Prelude.{◌≡◌, ◌≤◌, ◌++◌, IfOk, OnOk, length};
ghost use Rattle.std.specs.List.{AllByRecursion, list_any};
ghost use Rattle.query_fates.specs.Fates.{HasProgram};
ghost use Rattle.bq.specs.Accepted.{AcceptsFile, AcceptsFiles};
ghost use Rattle.bq.specs.Batch as command;
ghost use Rattle.bq.specs.Runs.{Finds};
ghost use Rattle.requests.specs.Batch as words;

use crate::commands::details::details_for_all;
use crate::commands::file::file_bytes;
use crate::commands::ledger::{Question, answer_about};
use crate::given::Given;
use crate::text::Text;
use bean_base::{List, Slice};
use bean_books::book_of;
use bean_load::Texts;
use endings::{Refusal, Verdict};
use query_fates::{Fate, file_fates};
use query_files::outlined;
use std::alloc::{AllocError, Global};
use std::mem::forget;
use stores::Source;

/// The bytes of the file of that name, which is accepted.
fn accepted_file<S: Source>(alloc: Global, name: &str, store: &mut S) -> Result<List<u8>, Refusal>
    ensures { AcceptsFile S.Source store.old store.new name.now result }
{
    let bytes = file_bytes(store, name)?;
    outlined(alloc, &bytes)?;
    Ok(List::new(bytes))
}

/// The bytes of the files of these names. None is read behind one that isn't accepted.
fn accepted_files<S: Source>(
    alloc: Global,
    names: &[Slice<'_>],
    store: &mut S,
) -> Result<List<List<u8>>, Refusal>
    ensures { AcceptsFiles S.Source store.old store.new names.now result }
{
    let mut files = List::new(Vec::new(alloc));
    for name in names {
        let file = accepted_file(alloc, name.text(), store)?;
        files.push(file)?;
    }
    Ok(files)
}

/// What stands below the name of a file.
fn text_by(fate: &Fate) -> &[u8]
    ensures { result.now ≡ command.text_by fate.now }
{
    match fate {
        Fate::Table(table) => table.as_slice(),
        Fate::OutsideBounds => "M1\n".as_bytes(),
        Fate::OutOfMemory => "M2\n".as_bytes(),
    }
}

/// Adds a file's name, and below it what became of its program.
fn push_section(text: &mut Vec<u8>, name: &str, fate: &Fate) -> Result<(), AllocError>
    ensures { OnOk result (text.new.items
        ≡ text.old.items ++ command.section_of name.now fate.now) }
{
    text.extend_from_slice("== ".as_bytes())?;
    text.extend_from_slice(name.as_bytes())?;
    text.extend_from_slice("\n".as_bytes())?;
    text.extend_from_slice(text_by(fate))?;
    Ok(())
}

/// What is told of files by what became of their programs.
fn text_of(alloc: Global, names: &[Slice<'_>], fates: &[Fate]) -> Result<Vec<u8>, AllocError>
    requires { length fates.now ≡ length names.now }
    ensures { IfOk result (λ text. text.items ≡ command.text_of names.now fates.now) }
{
    let mut text = Vec::new(alloc);
    for (number, name) in names.iter().enumerate() {
        push_section(&mut text, name.text(), &fates[number])?;
    }
    Ok(text)
}

fn lacks_memory(fate: &Fate) -> bool
    ensures { result ≡ command.lacks_memory fate.now }
{
    matches!(fate, Fate::OutOfMemory)
}

fn is_outside(fate: &Fate) -> bool
    ensures { result ≡ command.is_outside fate.now }
{
    matches!(fate, Fate::OutsideBounds)
}

/// Whether memory lacked for one of them.
fn is_one_lacking(fates: &[Fate]) -> bool
    ensures { result ≡ list_any command.lacks_memory fates.now }
{
    fates.iter().any(|fate| lacks_memory(fate))
}

/// Whether the ledger is outside the bounds of one of them.
fn is_one_outside(fates: &[Fate]) -> bool
    ensures { result ≡ list_any command.is_outside fates.now }
{
    fates.iter().any(|fate| is_outside(fate))
}

/// What is said of all of them: the worst.
fn verdict_of(fates: &[Fate]) -> Verdict
    ensures { result ≡ command.verdict_of fates.now }
{
    if is_one_lacking(fates) {
        return Verdict::OutOfMemory;
    }
    if is_one_outside(fates) {
        return Verdict::OutsideBounds;
    }
    Verdict::Fine
}

/// What becomes of the programs of files over the postings that texts are booked as.
#[derive(Clone, Copy)]
struct Batching<'p, 'n> {
    steps: u64,
    names: &'p [Slice<'n>],
    files: &'p [List<u8>],
    ghost some: { 1 ≤ steps },
    ghost each: { length files.now ≡ length names.now },
    ghost accepted: { ∥ AllByRecursion HasProgram files.now ∥₁ },
}

impl Question for Batching<'_, '_> {
    ghost use Rattle.bq.specs.Batch.{FilesBatched};
    ghost use Rattle.bq.specs.Ledgers.{about_book};

    ghost says = { λ batch. about_book (FilesBatched batch.names.now batch.files.now) };

    fn answer<'w>(&self, alloc: Global, texts: Texts) -> Result<Given<'w>, Refusal> {
        let details = details_for_all(alloc, self.files)?;
        let ledger = book_of(alloc, &texts, details)?;
        let ended = file_fates(alloc, self.files, &ledger, self.steps)?;
        // The process ends soon, and takes all memory back at once.
        forget(ledger);
        let text = text_of(alloc, self.names, &ended)?;
        Ok(Given::Told(verdict_of(&ended), Text::new(text)))
    }
}

/// What the query files of these names answer over the ledger of that name.
pub fn answer<'w, S: Source>(
    alloc: Global,
    steps: u64,
    ledger: &str,
    names: &[Slice<'_>],
    store: &mut S,
) -> Result<Given<'w>, Refusal>
    requires { 1 ≤ steps }
    ensures { Finds S.Source store.old store.new
        (command.batch.due (words.words_of steps ledger.now names.now)) result }
{
    let files = accepted_files(alloc, names, store)?;
    let batch = Batching {
        steps,
        names,
        files: files.as_slice(),
    };
    answer_about(alloc, &batch, ledger, store)
}
