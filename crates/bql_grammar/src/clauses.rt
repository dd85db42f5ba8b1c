//! The clauses of a query, as they were read.

use bean_base::Slice;
use bql_tree::Part;

/// A target, with its name.
#[derive(Drop)]
pub struct TargetRead<'a> {
    pub name: Slice<'a>,
    pub part: Part<'a>,
}

/// FROM and WHERE.
#[derive(Drop)]
pub struct FiltersRead<'a> {
    pub from: Option<Part<'a>>,
    pub filter: Option<Part<'a>>,
}

/// ORDER BY.
#[derive(Drop)]
pub struct OrderRead<'a> {
    pub items: Vec<Part<'a>>,
    pub descending: bool,
}

/// The clauses of SELECT.
#[derive(Drop)]
pub struct SelectRead<'a> {
    pub distinct: bool,
    pub targets: Vec<TargetRead<'a>>,
    pub filters: FiltersRead<'a>,
    pub group: Option<Vec<Part<'a>>>,
    pub order: OrderRead<'a>,
    pub limit: Option<u32>,
}

/// A name, with its place.
#[derive(Drop)]
pub struct NameRead<'a> {
    pub start: usize,
    pub text: Slice<'a>,
}

/// The clauses of JOURNAL.
#[derive(Drop)]
pub struct JournalRead<'a> {
    pub pattern: Option<Slice<'a>>,
    pub at: Option<NameRead<'a>>,
    pub from: Option<Part<'a>>,
}

/// The clauses of BALANCES.
#[derive(Drop)]
pub struct BalancesRead<'a> {
    pub at: Option<NameRead<'a>>,
    pub filters: FiltersRead<'a>,
}

/// The clauses of a query.
#[derive(Drop)]
pub enum QueryRead<'a> {
    Select(SelectRead<'a>),
    Journal(JournalRead<'a>),
    Balances(BalancesRead<'a>),
}
