//! What is limited of ledgers, of queries and of programs; and what a query takes for granted of the
//! ledgers that it runs on, its [`Bounds`].
//!
//! ```text
//! let widest = Bounds {
//!     schema: Version::Second,
//!     postings: MOST_POSTINGS as u32,
//!     units_digits: MOST_UNITS_DIGITS,
//!     value_digits: MOST_VALUE_DIGITS,
//! };
//! let of_files = Version::First.most_postings();   // a million
//! ```
//!
//! # Faults
//!
//! None.
//!
//! # Cost
//!
//! Nothing takes memory.
#![tactic(auto)]

mod bounds;
mod counts;

pub use bounds::{Bounds, Version};
pub use counts::{
    COUNT_BOUND, FIRST_MOST_POSTINGS, GREATEST_HEIGHT, LARGEST_QUERY, LARGEST_TEXT,
    LONGEST_SECTION, MOST_COMPONENTS, MOST_ITEMS, MOST_NESTED, MOST_PLACES, MOST_POSTINGS,
    MOST_UNITS_DIGITS, MOST_VALUE_DIGITS, MOST_VALUES, SLOTS,
};
