//! The limits of ledgers, of queries and of programs, each told once, but for those of loading: the
//! bytes of all texts, the names that are asked for, and how deep texts stand in one another.

/// The most postings of a ledger.
pub const MOST_POSTINGS: usize = 4_000_000;

/// The most postings of a ledger that a query file of the first version may speak of.
pub const FIRST_MOST_POSTINGS: usize = 1_000_000;

/// The most bytes of a text of a ledger, 16 MiB: so a line has no greater number.
pub const LARGEST_TEXT: usize = 16_777_216;

/// The most digits of a count of units or of a cost, in `10^-8`.
pub const MOST_UNITS_DIGITS: u8 = 20;

/// The most digits of a weight, and of a product of units and cost, in `10^-16`.
pub const MOST_VALUE_DIGITS: u8 = 28;

/// The most bytes of the text of a query.
pub const LARGEST_QUERY: usize = 65_535;

/// The most targets of a query, the most items of GROUP BY, and the most of ORDER BY.
pub const MOST_ITEMS: usize = 255;

/// The greatest height of an expression of a query.
pub const GREATEST_HEIGHT: usize = 200;

/// The most parentheses, signs and NOTs in one another, in a ledger's expression or a query's.
pub const MOST_NESTED: usize = 200;

/// The most components that a query takes of an account.
pub const MOST_COMPONENTS: u8 = 255;

/// The most decimals of a value.
pub const MOST_PLACES: u8 = 32;

/// Counts of values are below `2^127`, signs left off.
pub const COUNT_BOUND: u128 = 1 << 127;

/// The most values on the stack of a section.
pub const MOST_VALUES: usize = 256;

/// How many slots a section has.
pub const SLOTS: usize = 64;

/// The most instructions of a section, and the most entries of a pool.
pub const LONGEST_SECTION: usize = 65_535;
