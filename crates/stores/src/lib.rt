//! Stores: where texts come from and where files go.
//!
//! ```text
//! let mut store = HostStore::new(rt, 16 << 20);
//! let bytes = store.text("household.beancount")?;   // at most so many bytes of it
//! ```
//!
//! - [`Source`] gives texts by their names, and [`Store`] keeps files too,
//! - [`HostStore`] is the file system, and standard input under the name `-`,
//! - [`MemoryStore`] holds files in memory, tells what it was asked for, and fails at a chosen
//!   call.
//!
//! # What is known of a store
//!
//! Each store says by a relation what a call of it may do, so a caller knows what the store tells:
//! all of a `MemoryStore`; of a `HostStore` no more than of every store: its failures are counted, and
//! what was asked or put before a call stays so.
//!
//! # Faults
//!
//! [`SourceFault`]: the store failed, and its count of failures is one more; or memory lacked, and
//! nothing was kept.
//!
//! # Cost
//!
//! A text is read once, into memory of its own. A `HostStore` asks for no byte past its limit. A file
//! that it keeps is written beside the one that it replaces, so for a while there are both.
#![tactic(auto)]

mod host;
mod kept;
pub mod memory;
mod source;

pub use host::HostStore;
pub use memory::MemoryStore;
pub use source::{Source, SourceFault, Store};
