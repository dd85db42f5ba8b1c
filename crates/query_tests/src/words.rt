//! What runs and their turns tell, in words.

use query_answer::Answer;
use query_machine::Turn;
use query_values::Value;
use std::alloc::{AllocError, Global};

/// What a turn comes to.
pub fn turn_word(turn: Turn) -> &'static str {
    match turn {
        Turn::Going => "going",
        Turn::Done => "done",
        Turn::Failed => "failed",
    }
}

/// The one number that an answer has, where it has one row of one value.
fn number_in(answer: &Answer<'_>) -> Option<i128> {
    if answer.rows.len() != 1 {
        return None;
    }
    let row = answer.rows.row(0);
    if row.len() != 1 {
        return None;
    }
    match &row[0] {
        Value::Number { count, .. } => Some(*count),
        _ => None,
    }
}

/// What an answer counts, and how many steps and groups that took.
pub fn answer_words(alloc: Global, answer: &Answer<'_>) -> Result<String, AllocError> {
    let (steps, groups) = (answer.steps, answer.groups);
    match number_in(answer) {
        Some(number) => format!(in alloc; "{number}, steps {steps}, groups {groups}"),
        None => format!(in alloc; "no number, steps {steps}, groups {groups}"),
    }
}

/// Adds words behind others.
pub fn add_words(told: &mut String, words: &str) -> Result<(), AllocError> {
    if !told.is_empty() {
        told.push_str("; ")?;
    }
    told.push_str(words)?;
    Ok(())
}
