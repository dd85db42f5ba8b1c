//! Query files: a compiled query as bytes, and the program that bytes are.
//!
//! ```text
//! let program = decode(alloc, &bytes)?;   // or the first field that keeps them from being a file
//! let again = encode(alloc, &program)?;   // the same bytes
//! ```
//!
//! A query file may come from a stranger. [`decode`] looks at each field in the order of the file
//! and answers the first that fails, with its place; what it answers otherwise is a program whose
//! file the bytes are, and no other program has that file. A count that claims more than the file
//! holds is refused before memory is taken for it. Whether a program can be run without a fault is
//! another question, which the verifier answers.
//!
//! # Faults
//!
//! `V1` to `V6`, each with the byte where it stands: the magic, the version, a file that is cut
//! short, bytes behind the last section, a field that can't be so, a text that isn't UTF-8.
//!
//! # Cost
//!
//! Linear in the file. The texts of a decoded program are slices of the file's bytes, and its lists
//! of texts too, so that what a program takes beside its file is no more than the file.
#![tactic(auto)]

mod code_reading;
mod decoding;
mod fields;
mod instruction_reading;
mod reading;
mod writing;

pub use decoding::{decode, one_file_each};
pub use writing::encode;
