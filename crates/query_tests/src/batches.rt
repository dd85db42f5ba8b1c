//! Turns of runs, side by side.

use crate::files::{COUNT, SORTED, count_of_few};
use crate::ledgers::dollars;
use crate::words::{add_words, answer_words, turn_word};
use posting_table::Ledger;
use query_batch::{Batch, BatchCause, Member};
use query_machine::Turn;
use query_verifier::check_file;
use std::alloc::{AllocError, Global};
use std::test::Fail;
use verified_program::Checked;

/// What a turn of a batch told.
fn told_word(told: Result<Turn, BatchCause>) -> &'static str {
    match told {
        Ok(turn) => turn_word(turn),
        Err(BatchCause::NoSuchRun) => "no such run",
    }
}

/// What a run answers, or that it has none so far, or why it never will.
fn run_words(alloc: Global, run: &Member<'_, '_>) -> Result<String, AllocError> {
    match run.answer() {
        Ok(Some(answer)) => answer_words(alloc, answer),
        Ok(None) => String::from_str(alloc, "no answer"),
        Err(refusal) => String::from_str(alloc, refusal.code()),
    }
}

/// What is told of turns, each of a run by its number and of so many steps, and what the runs answer
/// then.
fn take(
    alloc: Global,
    programs: &[Checked<'_>],
    ledger: &Ledger<'_>,
    turns: &[(usize, u64)],
) -> Result<String, AllocError> {
    let mut batch = Batch::new(alloc, ledger, programs)?;
    let mut told = String::new(alloc);
    for (number, k) in turns {
        add_words(&mut told, told_word(batch.turn(*number, *k)))?;
    }
    for number in 0..programs.len() {
        if number < batch.len() {
            let words = run_words(alloc, batch.member(number))?;
            add_words(&mut told, &words)?;
        }
    }
    Ok(told)
}

/// The same of programs of these files, over a ledger of so many dollars.
fn take_of(
    alloc: Global,
    files: &[&[u8]],
    postings: usize,
    turns: &[(usize, u64)],
) -> Result<String, Fail> {
    let ledger = dollars(alloc, postings)?;
    let mut programs = Vec::new(alloc);
    for file in files {
        match check_file(alloc, file) {
            Ok(program) => programs.push(program)?,
            Err(_) => return Err(Fail::from("a file that is accepted")),
        }
    }
    Ok(take(alloc, programs.as_slice(), &ledger, turns)?)
}

#[test]
fn batch_starts_with_ample_memory(rt: HostRuntime) -> Result<(), Fail> {
    let few = count_of_few(7);
    let files = [COUNT.as_slice(), &COUNT, &COUNT, &few];
    let first = [(2, 1), (0, 1), (2, 1), (1, 1), (3, 1), (4, 1)];
    let told = take_of(rt.alloc(), &files, 8, &first)?;
    let wanted = "going; going; going; going; failed; no such run; \
        no answer; no answer; no answer; M1";
    assert_eq!(rt; told.as_str(), wanted);
    let all = [(2, 8), (0, 9), (2, 1), (1, 9)];
    let told = take_of(rt.alloc(), &files, 8, &all)?;
    let wanted = "going; done; done; done; 8, steps 9, groups 1; 8, steps 9, groups 1; \
        8, steps 9, groups 1; M1";
    assert_eq!(rt; told.as_str(), wanted);
    Ok(())
}

#[test]
fn turns_stop_between_steps(rt: HostRuntime) -> Result<(), Fail> {
    let files = [COUNT.as_slice(), &SORTED];
    let all = [(0, 0), (0, 4), (0, 4), (1, 9), (0, 1), (0, 5), (1, 1)];
    for (count, postings, wanted) in [
        (0, 8, "no answer; no answer"),
        (3, 8, "going; going; going; no answer; no answer"),
        (
            5,
            8,
            "going; going; going; going; done; 8, steps 9, groups 1; no answer",
        ),
        (
            7,
            8,
            "going; going; going; going; done; done; going; 8, steps 9, groups 1; no answer",
        ),
        (1, 0, "done; no number, steps 0, groups 0; no answer"),
    ] {
        let told = take_of(rt.alloc(), &files, postings, &all[..count])?;
        assert_eq!(rt; told.as_str(), wanted);
    }
    Ok(())
}
