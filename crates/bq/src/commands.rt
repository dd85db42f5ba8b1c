//! What each command answers.
ghost use Rattle.std.specs.Prelude.{◌≡◌, map};
ghost use Rattle.bq.specs.Commands.{due_to};
ghost use Rattle.bq.specs.Named as named;
ghost use Rattle.bq.specs.Named.{AskFor};
ghost use Rattle.bq.specs.Runs.{Finds};

mod batch;
mod check;
mod compile;
mod details;
mod file;
mod ledger;
mod list;
mod query;
mod run_file;
mod show;
mod table;
mod upgrade;
mod verify;

use crate::commands::check::Checking;
use crate::commands::ledger::answer_about;
use crate::commands::list::Listing;
use crate::given::Given;
use endings::{Cause, Refusal};
use requests::{Request, request_in};
use std::alloc::Global;
use stores::Source;

/// What is asked for; where that is nothing, the words are refused.
fn asked_or_refused<'w>(asked: Option<Request<'w>>) -> Result<Request<'w>, Refusal>
    ensures { result ≡ named.asked_or_refused asked.entry }
{
    match asked {
        Some(request) => Ok(request),
        None => Err(Refusal::Refused(Cause::Words)),
    }
}

/// What the words ask for.
fn asked_by<'w>(alloc: Global, words: &'w [&'w str]) -> Result<Request<'w>, Refusal>
    ensures { AskFor (map (λ w. w.now) words.entry.now) result }
{
    let asked = request_in(alloc, words)?;
    asked_or_refused(asked)
}

/// What the words ask for, found in what the store gives.
pub fn find<'w, S: Source>(
    alloc: Global,
    words: &'w [&'w str],
    store: &mut S,
) -> Result<Given<'w>, Refusal>
    ensures { Finds S.Source store.old store.new (due_to (map (λ w. w.now) words.entry.now)) result }
{
    let request = asked_by(alloc, words)?;
    match request {
        Request::List(ledger) => answer_about(alloc, &Listing, ledger.text(), store),
        Request::Check(ledger) => answer_about(alloc, &Checking, ledger.text(), store),
        Request::Show(file) => show::answer(alloc, file.text(), store),
        Request::Verify(file) => verify::answer(alloc, file.text(), store),
        Request::Upgrade(old, new) => upgrade::answer(alloc, old.text(), new, store),
        Request::Run(file, ledger) => run_file::answer(alloc, file.text(), ledger.text(), store),
        Request::Query(ledger, text) => query::answer(alloc, ledger.text(), text.text(), store),
        Request::Compile(text, file, bounds) => compile::answer(alloc, text.text(), file, &bounds),
        Request::Batch(steps, ledger, files) => {
            batch::answer(alloc, steps, ledger.text(), files.as_slice(), store)
        }
    }
}
