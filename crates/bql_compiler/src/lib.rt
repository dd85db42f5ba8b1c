//! From typed queries to programs.
//!
//! ```text
//! let query = parse_query(alloc, "SELECT account, sum(number) WHERE number > 1.5")?;
//! let typed = type_query(alloc, &query, &bounds)?;
//! let program = compile(alloc, &typed)?;
//! let bytes = encode(alloc, &program)?;
//! ```
//!
//! The program is that of the scheme (`specs/Program`), with the bounds by which the query has its
//! type. It carries the query (`specs/Carried`): what comes out of it is what the query answers. And
//! it is well shaped: so its file is accepted by the verifier, unless memory lacks or a pattern isn't
//! built there.
//!
//! # The scheme
//!
//! What each section of a program computes, its pool and the depth of its stack are functions of the
//! plan of a query.
//!
//! ```text
//! SELECT account, sum(number) WHERE number > 1.5
//!
//! filter    number > 1.5
//! row       account, and number, which is gathered
//! last      the key of index 0, the aggregate of index 0
//! ```
//!
//! Its laws, from the ground up:
//!
//! - **Code** (`bql_code`) is put together of expressions: loads, operations, AND and OR. Where each
//!   of them has a shape, the code has state shapes at all its places, and its stack is as deep as
//!   the expressions say ([`shaped_code_is_well_shaped`]). A section of code leaves the values of
//!   its expressions, by the machine's own tables (`specs/CoreValue`), or nothing: no more than 256
//!   values stand on the stack ([`codes_leave_their_values`]). So whoever compiles argues about
//!   expressions alone, and of no place, no jump and no stack.
//! - **Lowered expressions** (`bql_lowering`) keep what they were: numbers are brought to equal
//!   decimals, a side that is NULL asks whether the other is null, lists and patterns stand in the
//!   pool, and still what the typer accepts has the same shape by the rules of the machine
//!   ([`lowered_expressions_have_their_shapes`]) and the same value, wherever it has one there
//!   ([`lowered_expressions_have_their_values`]). What an expression reads is there to be loaded
//!   where it is computed ([`what_is_read_is_loaded`], `specs/Loaded`).
//! - **Programs** of queries that have a type are well shaped, unless their stack would be too deep
//!   ([`compiled_programs_are_well_shaped`]), and carry their queries: over each list of rows,
//!   wherever the plain machine comes to an answer, that is the query's, under the names of its
//!   targets ([`compiled_programs_carry_their_queries`]). Over a ledger within the bounds they come
//!   to an answer ([`compiled_programs_answer_their_queries`]).
//!
//! ```text
//! number + 1          number of 8 decimals at most 10^20, aligned 1: number of 8 decimals
//! 0 LOAD_COL 11       []
//! 1 CONST 0           [N]
//! 2 ALIGN 8           [N, N]
//! 3 ADD               [N, N]       the depth is 2
//!                     [N]
//! ```
//!
//! # Refusals
//!
//! The least that holds of these; and a query of which none holds is compiled, unless memory lacks.
//!
//! - `C1` ([`CompileCause::TooLong`]): a section of more than 65,535 instructions, a pool of more
//!   than 65,535 entries, or more than 255 aggregates.
//! - `C2` ([`CompileCause::NotBuilt`]): a pattern that is no regular expression, or one that would
//!   be too large.
//! - `C3` ([`CompileCause::TooDeep`]): more than 256 values on the stack.
//!
//! # Cost
//!
//! That of lowering and of the pool. Whether the code has room is found before it is written;
//! patterns are built once, and thrown away. Of the scheme there are definitions and laws alone.
#![tactic(auto)]

mod cause;
mod code;
mod compiled;
mod laws;
mod output;
mod sections;

pub use cause::CompileCause;
pub use compiled::compile;
pub use laws::{
    codes_leave_their_values, compiled_programs_answer_their_queries,
    compiled_programs_are_well_shaped, compiled_programs_carry_their_queries,
    lowered_expressions_have_their_shapes, lowered_expressions_have_their_values,
    shaped_code_is_well_shaped, what_is_read_is_loaded,
};
