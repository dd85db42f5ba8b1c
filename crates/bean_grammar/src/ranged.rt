//! Values of a form that the grammar has, in the range of a ledger or not.

/// A value, or that what is written lies outside the ledger's range: a day that the calendar lacks,
/// or a number with too many digits, there or in a part of it.
#[derive(Drop)]
pub enum Ranged<T> {
    Within(T),
    Outside,
}
