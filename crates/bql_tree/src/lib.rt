//! What the expressions of queries are: columns, functions and operators, the trees of them, and
//! the causes for which an expression of the grammar is refused.
//!
//! ```text
//! // in `SELECT -number * 2`: the token `number`, then what stands around it
//! let column = part::name(alloc, &number, Scope::Postings)?;   // Column::Number, height 1
//! let negative = part::signed(alloc, &dash, true, column)?;    // height 2
//! let two = part::leaf(alloc, &token, number::number("2"))?;
//! let product = part::two(alloc, BinaryOperator::Times, negative, two)?;
//! // product.expr: Two(7, Times, One(7, Minus, Leaf(8, Column(Number))), Leaf(17, Number(2)))
//! ```
//!
//! An [`Expr`] is a tree whose parts each have the place of their first byte. Parentheses and a `+`
//! in front are no parts of it. A [`Part`] is what was read of an expression: from where to where
//! it stands, how high it is, and its tree or else the least [`PartCause`].
//!
//! # Causes
//!
//! A name that no column and no function has is unknown ([`PartCauseKind::UnknownName`]). The profile
//! leaves out ([`PartCauseKind::OutsideProfile`]): the names of columns and functions of other tools,
//! NULL other than as one side of `=` or `!=`, keys and patterns that are no text in quotes, a
//! count of components other than 1 to 255, and what is higher than 200. Of several causes the one
//! at the least place counts, and at one place that a name is unknown.
//!
//! Names are the same in small and in capital letters. FROM knows the columns of transactions
//! alone, `ENTRY_META` of the metadata functions, and `HAS_ACCOUNT`, which stands nowhere else.
//!
//! # Cost
//!
//! Each call takes constant time, but for names, which are looked for among all, and for the parts
//! of a call. A tree takes a box for each of its parts, and arguments a list.
#![tactic(auto)]

pub mod call;
pub mod cause;
pub mod function;
pub mod level;
pub mod number;
pub mod part;
mod tree;

pub use cause::{PartCause, PartCauseKind};
pub use function::{Function, Scope};
pub use part::{Alone, Part};
pub use query_terms::Column;
pub use tree::{BinaryOperator, Expr, Leaf, MetadataOwner, UnaryOperator};
