//! The verifier: which bytes are a query file that runs without a fault.
//!
//! ```text
//! let checked = check_file(alloc, &bytes)?;    // or the first cause, as V8 at 36
//! checked.depth();                             // the most values on its stack
//! checked.budget(3, 1);                        // the most steps over three postings in one group
//! ```
//!
//! A query file may come from a stranger. [`check_file`] decodes it, builds its patterns and looks
//! for shapes: what is known beforehand of the values at each place of its three sections. Where
//! there are such, whoever runs the [`Checked`] that is answered needs no test.
//!
//! # Causes
//!
//! `V1` to `V6` where the bytes are no query file, the first field in reading order; else `V7` to
//! `V18` at the least place: bounds outside their limits (`V17`), a pattern that isn't built
//! (`V16`), then the sections one behind the other, place by place. An instruction has the place of
//! its first byte, the end of a section the byte behind it, a pattern its entry of the pool.
//!
//! # Cost
//!
//! Linear in the file, patterns aside, and at most 64 shapes and a stack beside each place that a
//! jump leads to.
#![tactic(auto)]

mod bounds;
mod cause;
mod checking;
mod patterns;
mod places;

pub use cause::VerifierCause;
pub use checking::check_file;
