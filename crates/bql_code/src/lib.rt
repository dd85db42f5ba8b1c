//! Code of expressions: what a section is to compute, as a tree of the machine's operations, and
//! the instructions that compute it.
//!
//! ```text
//! number > 1.5 AND date = 2014-01-02
//!
//! And(Greater(number, Align 8 of 1.5), Equal(date, 2014-01-02))
//!
//!   0 LOAD_COL 11    number
//!   1 CONST 0        1.5, of one decimal
//!   2 ALIGN 8        as number has them
//!   3 GT
//!   4 JUMP_IF_FALSE 11
//!   5 LOAD_COL 0     date
//!   6 CONST 1
//!   7 EQ
//!   8 JUMP_IF_FALSE 11
//!   9 TRUE
//!  10 JUMP 12
//!  11 FALSE
//! ```
//!
//! Operands are computed from left to right, and behind them the operation. Of AND and OR the second
//! operand is computed only where the first leaves it open. Constants stand in a [`Pool`], in order
//! of first use, equal ones once. `specs/Code` and `specs/Pool` are the definitions; the functions
//! are told by them alone.
//!
//! # Faults
//!
//! None of its own: [`room_behind`] and [`are_within`] tell whether the code has room in a section,
//! and its values on the stack, before any is written.
//!
//! # Cost
//!
//! Linear in the tree, but for the constants, each of which is looked for in the pool. Memory is
//! taken for the pool and for the instructions.
#![tactic(auto)]

mod computed;
mod emitting;
mod entry;
mod literal;
mod pool;
mod room;

ghost use Rattle.bql_code.specs.Laws.{PoolsHaveWhatIsUsed};

pub use computed::{Change, Core, Load};
pub use emitting::{emit, emit_all};
pub use entry::Entry;
pub use literal::{Literal, ShortText};
pub use pool::Pool;
pub use room::{are_within, is_within, room_behind, room_behind_all};

/// Whatever is used stands in the pool, at its index.
pub fn pools_have_what_is_used()
    ensures { PoolsHaveWhatIsUsed }
{}
