//! Runs, whole.

use crate::files::{COUNT, count_of_few};
use crate::ledgers::dollars;
use crate::words::answer_words;
use posting_table::Ledger;
use query_machine::run;
use query_verifier::check_file;
use std::alloc::{AllocError, Global};
use std::test::Fail;
use verified_program::Checked;

/// What a program answers over a ledger, or why it doesn't.
fn answered(
    alloc: Global,
    program: &Checked<'_>,
    ledger: &Ledger<'_>,
) -> Result<String, AllocError> {
    match run(alloc, program, ledger) {
        Ok(answer) => answer_words(alloc, &answer),
        Err(refusal) => String::from_str(alloc, refusal.code()),
    }
}

/// The same of the program of a file.
fn answered_by(alloc: Global, file: &[u8], ledger: &Ledger<'_>) -> Result<String, AllocError> {
    match check_file(alloc, file) {
        Ok(program) => answered(alloc, &program, ledger),
        Err(refusal) => String::from_str(alloc, refusal.code()),
    }
}

#[test]
fn runs_with_ample_memory(rt: HostRuntime) -> Result<(), Fail> {
    let ledger = dollars(rt.alloc(), 3)?;
    let mut second = COUNT;
    second[5] = 2;
    let (three, two) = (count_of_few(3), count_of_few(2));
    let counted = "3, steps 4, groups 1";
    for (file, wanted) in [
        (&COUNT, counted),
        (&second, counted),
        (&three, counted),
        (&two, "M1"),
    ] {
        let told = answered_by(rt.alloc(), file, &ledger)?;
        assert_eq!(rt; told.as_str(), wanted);
    }
    Ok(())
}
