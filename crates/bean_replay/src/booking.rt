//! What is booked of directives.
use crate::written::Written;
use bean_base::{Apart, List};
use bean_holdings::Posted;
use bean_pad::NotedPad;

/// A transaction that is kept.
#[derive(Drop)]
pub struct Kept<'a> {
    /// In the memory of its directive.
    pub written: Written<'a>,
    /// The postings that it is booked as.
    pub postings: List<Posted<'a>>,
}

/// What is booked of a directive.
#[derive(Drop)]
pub enum Booking<'a> {
    /// A transaction that is kept.
    Transaction(Apart<Kept<'a>>),
    /// A pad, with what comes of it.
    Pad(Apart<NotedPad<'a>>),
}
