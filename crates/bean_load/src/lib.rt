//! Loading: the texts of a ledger, and what they say together.
//!
//! ```text
//! let texts = gather(alloc, &mut source, "books/main.beancount")?;   // it, and what it includes
//! let loaded = load(alloc, &texts)?;
//! // loaded.directives(): those of all texts, in the order in which they are taken
//! ```
//!
//! # Texts
//!
//! [`gather`] asks a [`Source`] for a text and reads at the place of each include line the text
//! that it names. A name that begins with `/` is taken as it is, any other is joined to the folder
//! of the including text, up to its last `/`. No name is asked twice.
//!
//! # The order
//!
//! A text is read in [`Part`]s, and what an include line gives stands between two of them.
//! [`load`] arranges the directives by day, of one day opens, then balances, all else, documents
//! and closes, then by their parts in reading order, and those of one part as they are written.
//! The texts decide all of it ([`one_loading`]), and what the source answers decides the texts
//! ([`one_gathering`]).
//!
//! # Faults
//!
//! - `L1`, where the source fails at the top text, `L2`, where that is not UTF-8,
//! - `L3`, where a text has more than 16 MiB or all that were read more than 64 MiB, where an
//!   include line stands 16 texts deep, or where 1,000 names were asked before its own,
//! - `F22` at an include line whose name was asked before, where the source fails, or whose bytes
//!   are not UTF-8. The others are read.
//!
//! For an include line they are looked for in this order: asked before, depth, names, failure,
//! size, UTF-8. Want of memory may come at any time.
//!
//! # Cost
//!
//! Each text is searched for lines that begin with the word `include`; where there are some, its
//! tokens are read once to find its include lines. It is parsed once to be loaded. The name of an
//! include line is made when the line is met, and looked up by its hash. The directives are put in
//! order where they lie, which takes 8 bytes for each, and as many again for each of those that
//! don't rise (where these are more than half, at most for all).
#![tactic(auto)]

mod cause;
mod following;
mod gathering;
mod include;
mod loaded;
mod order;
mod placed;
mod rank;
mod texts;

pub use cause::LoadCause;
pub use following::{gather, one_gathering};
pub use gathering::{DEEPEST, MOST_NAMES};
pub use loaded::{load, one_loading};
pub use stores::Source;
pub use texts::{File, Part, Texts};
