//! Query files as bytes: of the text of a query the file of its program, and what is told of a file.
//!
//! ```text
//! let file = compiled(alloc, "SELECT count(*)", &bounds)?;    // or Q1 at 6, Y5 at 11, C1
//! let outline = outlined(alloc, &file)?;                       // or V8 at 36
//! outline.depth;                                              // 1
//! let file = upgraded(alloc, &file)?;                         // the same file, in the second version
//! let text = listing(alloc, &file)?;                          // what `bq show` prints
//! ```
//!
//! Each call goes through several stages: a text is parsed, typed, compiled and encoded; a file is
//! decoded and checked, and then upgraded or shown. Here is said what they come to together, in terms
//! of texts and bytes alone, so that who calls knows no type of the stages between.
//!
//! # Refusals
//!
//! [`compiled`] tells a [`TextCause`]: why the text is no query, else why that has no type, else why
//! it has no program. [`outlined`] and [`upgraded`] tell why a file isn't accepted (`V1` to `V18`),
//! [`listing`] only why bytes are no query file (`V1` to `V6`), since it shows what isn't accepted
//! too.
//!
//! # Cost
//!
//! That of the stages: near-linear in the text and in the file. Nothing is kept between calls.
#![tactic(auto)]

mod cause;
mod compiling;
mod files;

pub use cause::TextCause;
pub use compiling::compiled;
pub use files::{Outline, listing, outlined, upgraded};
