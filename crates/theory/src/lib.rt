//! What several crates say and prove alike. There is nothing to run here: each part is a definition
//! in `specs`, with its laws in `proofs` under the same name and `Facts`.
//!
//! - `Form`: a rule of a grammar, as a relation of the lexemes that stand to be read, the value
//!   that a front of them stands for, and the rest behind it. Forms are put together by `word`,
//!   `behind`, `<+>`, `either`, `due`, `row` and others; each has its laws of reading
//!   (`FormFacts`), rows have theirs for loops (`RowFacts`), and each keeps a grammar unambiguous
//!   (`OneReading`).
//! - `LongestFront`: the longest front of a list that is of a form, as lexers take it.
//! - `Arrangement`: the items of a list in the order of their keys, those of one key in the order
//!   that they had; there is one.
//! - `Cut`: a list cut before each item that begins a part.
//! - `Joined`: lists one behind the other, with a separator.
//! - `Once`: the items of a list in order, each once.
#![tactic(auto)]
