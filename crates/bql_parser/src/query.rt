//! Queries.
ghost use Rattle.bql_parser.specs.Small.{IsSmall};
ghost use Rattle.bql_parser.specs.View.{asked_of};

use bean_base::Slice;
use bql_tree::Expr;

/// A value of a query's answer.
#[derive(Drop)]
pub struct Target<'a> {
    /// What follows AS, or else the target's own text.
    pub name: Slice<'a>,
    pub expr: Box<Expr<'a>>,
}

/// What rows are grouped or ordered by.
#[derive(Drop)]
pub enum ItemKind<'a> {
    /// The target of this index.
    Target(usize),
    Expr(Box<Expr<'a>>),
}

/// What rows are grouped or ordered by, with the place of its first byte.
#[derive(Drop)]
pub struct Item<'a> {
    pub place: usize,
    pub kind: ItemKind<'a>,
}

/// Which transactions pass, and which of their postings.
pub struct Filters<'a> {
    pub from: Option<Box<Expr<'a>>>,
    pub filter: Option<Box<Expr<'a>>>,
}

/// Written out, so that what gives one up needs to know nothing of what is in it.
impl Drop for Filters<'_> {
    fn drop(self) {
        let Filters { from: _, filter: _ } = self;
    }
}

/// How rows are ordered: not at all, where there are no items.
pub struct Order<'a> {
    pub items: Vec<Item<'a>>,
    pub descending: bool,
}

/// Written out, so that what gives one up needs to know nothing of what is in it.
impl Drop for Order<'_> {
    fn drop(self) {
        let Order {
            items: _,
            descending: _,
        } = self;
    }
}

/// A query whose text may still be too long.
#[derive(Drop)]
pub struct Draft<'a> {
    pub distinct: bool,
    pub targets: Vec<Target<'a>>,
    pub filters: Filters<'a>,
    pub group: Option<Vec<Item<'a>>>,
    pub order: Order<'a>,
    pub limit: Option<u32>,
}

/// What is asked of the postings that pass: a SELECT, as it is written or as a JOURNAL or a
/// BALANCES stands for it. It has from 1 to 255 targets, at most 255 items of GROUP BY and of ORDER
/// BY, each, no text or list in it is longer than 65,535, and lists have members, all literals.
pub struct Query<'a> {
    pub distinct: bool,
    pub targets: Vec<Target<'a>>,
    pub filters: Filters<'a>,
    /// Absent without GROUP BY.
    pub group: Option<Vec<Item<'a>>>,
    pub order: Order<'a>,
    pub limit: Option<u32>,
    ghost is_small: { ∥ IsSmall (asked_of distinct targets filters group order limit) ∥₁ },
}

/// Written out, so that what gives one up needs to know nothing of what is in it.
impl Drop for Query<'_> {
    fn drop(self) {
        let Query {
            distinct: _,
            targets: _,
            filters: _,
            group: _,
            order: _,
            limit: _,
        } = self;
    }
}
