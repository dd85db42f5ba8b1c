//! What the books are made of: exact decimal numbers, accounts, currencies, amounts, quoted texts
//! and days, each read from a text by a call, and the faults of a ledger with their places.
//!
//! ```text
//! let usd = parse_currency("USD")?;
//! let price = Num::parse("1,000.50")?;         // the count 100050 of 10^-2
//! let fee = Num::parse("2")?.negated();
//! let paid = Amount { number: price.add(fee)?, currency: usd };
//! let cash = parse_account("Assets:Cash")?;
//! let day = parse_day("2014-01-31")?;          // Display writes it so again
//! let shop = Text::new("The \"Corner\" shop");  // stands for The "Corner" shop
//! ```
//!
//! # Slices
//!
//! A name or a text is a slice of the text that it was read from, and takes no memory. Contracts
//! see its bytes, wherever they lie ([`Slice`], [`Account`], [`Currency`]), or what the text stands
//! for ([`Text`]), so a struct or an enum of them is itself the value that contracts speak of. Such
//! a value can't be `Copy`: `lend` gives it once more.
//!
//! # Faults
//!
//! `N1` for a number with more than 8 decimals, or whose whole part is `10^12` or more; `N2` to `N5`
//! for what is no number, account, currency or day. [`Fault`] is what is wrong at a [`Place`].
//!
//! # Cost
//!
//! Lists ([`List`], [`Few`]) and what lies apart ([`Apart`]) take memory, nothing else does. Each
//! call is linear in the text that it reads, and a sum, a product or a rounding takes a few steps.
#![tactic(auto)]

mod amounts;
mod apart;
mod days;
mod fault;
mod few;
mod flags;
mod list;
mod names;
mod num;
mod power;
mod roots;
mod slice;
mod span;
mod texts;

pub use amounts::Amount;
pub use apart::Apart;
pub use days::{Day, NotADay, day_of_form, parse_day};
pub use fault::{Fault, FaultKind};
pub use few::Few;
pub use flags::Flag;
pub use list::List;
pub use names::{Account, Currency, NameFault, parse_account, parse_currency};
pub use num::{Num, NumFault};
pub use power::power_of_ten;
pub use roots::Root;
pub use slice::Slice;
pub use span::Place;
pub use texts::Text;
