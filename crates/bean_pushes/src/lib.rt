//! Pushes and pops: which of them are matched, and what is given to the transactions between them.
//!
//! ```text
//! pushtag #trip                  gives from here
//! 2024-01-01 * "Lunch"           is given #trip
//! pushtag #trip                  gives in its place
//! poptag #trip                   takes the second back; the first gives again
//! poptag #trip                   takes the first back
//! ```
//!
//! A push gives its tag or entry to the transactions up to its pop, behind their own; of one tag or
//! key the latest push that is open gives alone. A pop takes back the latest push of its name. One that
//! is open at the end gives nothing, and is F4, as is a pop of nothing.
//!
//! Pushes and pops come as a list, each with its line and how many directives stand before it
//! ([`PlacedBound`]). First is found, from the last to the first, up to where the latest push of each
//! name gives (`reaches`); then, from the first to the last, what is given (`give_all`), and what is
//! at fault (`add_unmatched`).
//!
//! # Cost
//!
//! Up to eight items for each directive of a text are given at once, and the directives have them as
//! their own. What is pushed beyond that stands once for all directives, each of which is told its
//! place alone: however much is open, that takes the same time and memory. Names of pushes and pops
//! take memory while they are matched.
#![tactic(auto)]

mod gifts;
mod matches;
mod scope;

pub use matches::reaches;
pub use scope::{PlacedBound, add_unmatched, give_all};
