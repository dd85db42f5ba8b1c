//! How queries are read, from tokens to trees and to the clauses that are written.
//!
//! ```text
//! let found = tokens(alloc, "1 + number * 2 OR TRUE")?;
//! let (part, rest) = expression(alloc, found.as_slice(), Scope::Postings)?;
//! // part.expr: OR of the sum of 1 and the product, and of TRUE. rest: none.
//!
//! let found = tokens(alloc, "SELECT account WHERE number > 1")?;
//! let read = query(alloc, text, found.as_slice())?;
//! // QueryRead::Select: the target `account`, and the filter
//! ```
//!
//! A rule of the grammar stands in `specs/` as a form (expressions in `specs/Expression`, clauses in
//! `specs/Grammar`), and its reader has the same name. `OR` binds weakest, then `AND`, `NOT`,
//! comparisons, sums, products and signs; operators of one level group to the left. Each reader of
//! expressions gives what its form says of the tokens, as far as it goes, and no other reading is
//! one; or it tells that there is none. [`query`] gives what all the tokens are read as, and no other
//! reading is one; or it tells that there is none, and the token that can't go on: those before it
//! begin a query. Names stand as they are written, and parts of expressions have their trees or their
//! least causes: what a query asks is settled above.
//!
//! # What is refused
//!
//! Where no expression stands, the reader tells the token that can't go on ([`Stuck`]): those before
//! it begin an expression (`specs/Beginning`). And it tells whether the token stands inside 200
//! others: parentheses that are not closed, and signs and NOTs whose operand still goes on
//! (`specs/Nesting`). An expression of the grammar may still name what isn't known, or what the
//! profile leaves out: then its part has the cause at the least place in place of its tree, and
//! reading goes on, so that what is no query at all is told first.
//!
//! # Cost
//!
//! Linear in the tokens, and at most 200 parentheses, signs and NOTs deep, those of calls and of
//! lists among them. A tree is at most 200 high; what is higher is let go as soon as it is.
//! Of clauses a list for the items of each, beside what expressions take.
#![tactic(auto)]

pub mod clauses;
mod expressions;
pub mod front;
mod queries;
mod reading;
mod stuck;

pub use expressions::expression;
pub use queries::query;
pub use stuck::Stuck;
