//! The texts of numbers and days, as tables and metadata show them, spaces between texts, and texts that
//! show as they are.
//!
//! ```text
//! push_number(&mut out, -1050, 2, 0)?;   // -10.5
//! push_number(&mut out, -1050, 2, 2)?;   // -10.50
//! number_len(-1050, 2, 2);               // 6
//! push_number_right(&mut out, -1050, 2, 2, 8, 1)?;   // two spaces, -10.50 and a space
//! push_number_named(&mut out, -1050, 2, 2, b"USD")?;   // -10.50 USD
//! push_day(&mut out, day)?;              // 2014-01-31
//! last.push(&mut out, day, 2)?;          // the same and two spaces, made once for a day that comes again
//! ```
//!
//! A number has the fewest decimals that are exact, but at least as many as are asked for.
//!
//! # Errors
//!
//! Want of memory; what was added before it may stay in the buffer.
//!
//! # Cost
//!
//! A few steps a digit. Most numbers are divided as 64 bits.
#![tactic(auto)]

mod days;
mod digits;
mod plain;
mod printable;
mod runs;

pub use days::{LastDay, are_one};
pub use digits::{number_len, push_day, push_number, push_number_named, push_number_right};
pub use plain::{is_plain, push_bytes, push_padding, push_plain};
pub use printable::is_printable;
pub use runs::{push_run, push_spaces};
