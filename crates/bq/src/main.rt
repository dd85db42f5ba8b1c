//! `bq` keeps books: it reads plain text ledgers, books them and answers questions on them.
//!
//! `run_words` is the program over any store and any outputs, and has the promise of the whole:
//! which answer comes for which words and which texts, what is written with it, and the status.
//! `commands` has a module for what each command answers; what words ask for is the crate
//! `requests`. `shown` says what `list` shows of a book; how the program ends, with an answer or
//! without, is the crate `endings`. `in_memory` is the same over a store and
//! outputs of memory, and `main` the program on the host's.
#![tactic(auto)]

ghost use Rattle.std.specs.IoError.{error_kind};
ghost use Rattle.std.specs.Process.{exit_status};
ghost use Rattle.bq.specs.Process.{EndsOrLacksWords, IsRefusedBy, IsStatus};

mod arguments;
mod commands;
mod given;
mod in_memory;
mod run;
mod shown;
mod text;

use crate::arguments::run_args;
use endings::{Cause, Refusal};
use limits::LARGEST_TEXT;
use outputs::Stream;
use std::process::ExitCode;
use std::{env, io};
use stores::HostStore;

/// One byte more than the largest text, so that a larger one shows.
const MOST_BYTES: u64 = LARGEST_TEXT as u64 + 1;

/// What is refused where the words can't be had: they are no text, or memory lacks.
fn refusal_of(error: &io::Error) -> Refusal
    ensures { IsRefusedBy (error_kind error.now) result }
{
    match error.kind() {
        io::ErrorKind::OutOfMemory => Refusal::OutOfMemory,
        _ => Refusal::Refused(Cause::Words),
    }
}

/// Runs the program on the arguments, the files and the streams of its process.
fn run_program(rt: HostRuntime) -> Result<u8, Refusal>
    ensures { EndsOrLacksWords result }
{
    let args = env::args(&rt).map_err(|error| refusal_of(&error))?;
    let mut out = Stream::new(rt.stdout());
    let mut err = Stream::new(rt.stderr());
    let alloc = rt.alloc();
    let mut store = HostStore::new(rt, MOST_BYTES);
    run_args(alloc, args, &mut store, &mut out, &mut err).map_err(|_| Refusal::OutOfMemory)
}

/// Runs the program, and tells on standard error where its words can't be had.
fn run_process(rt: HostRuntime) -> ExitCode
    ensures { IsStatus (exit_status result) }
{
    let mut err = rt.stderr();
    match run_program(rt) {
        Ok(status) => ExitCode::from(status),
        Err(refusal) => {
            // The status stands even where the line can't be written.
            let _ = err.write_all(refusal.line().as_bytes());
            ExitCode::from(refusal.status())
        }
    }
}

fn main(rt: HostRuntime) -> ExitCode {
    run_process(rt)
}
