//! What tables hash of values, so that values which are the same are found in one place.
//!
//! ```text
//! 5, 5.0, 5.00       the magnitude in the fewest decimals: 5
//! 5.00 USD           that, and the currency
//! ```
//!
//! That the same values are hashed alike is a law, whose contract says what holds of the definitions.
//!
//! # Cost
//!
//! The law doesn't run.
#![tactic(auto)]

ghost use Rattle.value_hashes.specs.Fed.{SameAreFedAlike};

/// Lists of values that are the same are hashed alike.
pub fn same_values_are_fed_alike()
    ensures { SameAreFedAlike }
{}
