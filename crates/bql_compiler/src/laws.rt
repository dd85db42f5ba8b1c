//! The laws of code, of lowered expressions and of the programs of queries.
ghost use Rattle.bql_compiler.specs.Answering.{CompiledAnswerTheirQueries};
ghost use Rattle.bql_compiler.specs.Carrying.{CompiledCarryTheirQueries};
ghost use Rattle.bql_compiler.specs.CodeValues.{AllCodeLeavesItsValues, CodeLeavesItsValue};
ghost use Rattle.bql_compiler.specs.CompiledShapes.{CompiledAreWellShaped};
ghost use Rattle.bql_compiler.specs.LoweredShapes.{LoweredHaveShapes, ReadsAreLoaded};
ghost use Rattle.bql_compiler.specs.LoweredValues.{LoweredHaveTheirValues};
ghost use Rattle.bql_compiler.specs.Shaped.{ShapedCodeIsWellShaped};

use plain_machine::programs_have_one_answer;
use well_shaped::programs_run_safely_where_ledgers_fit;

/// A program whose sections are the code of what has shapes is well shaped, and its depth is the
/// greatest of what they compute.
pub fn shaped_code_is_well_shaped()
    ensures { ShapedCodeIsWellShaped }
{}

/// Where the code of an expression leaves something, it is the expression's value; and where that of
/// some expressions one behind the other does, these are their values.
pub fn codes_leave_their_values()
    ensures one { CodeLeavesItsValue }
    ensures all { AllCodeLeavesItsValues }
{}

/// What an expression that has a shape is lowered to has the same shape by the machine's rules.
pub fn lowered_expressions_have_their_shapes()
    ensures { LoweredHaveShapes }
{}

/// What typed expressions read is there to be loaded, in the sections in which they are computed:
/// columns and metadata in a filter and a row section; behind the last row keys and aggregates of a
/// group alone.
pub fn what_is_read_is_loaded()
    ensures { ReadsAreLoaded }
{}

/// What a typed expression is lowered to has the expression's value over rows, or none, wherever
/// what is loaded is what the expression reads of these rows.
///
/// Counts are whole numbers of any size in the meaning, and of 128 bits in the machine: what isn't
/// held there is a fault, and of a fault nothing is said.
pub fn lowered_expressions_have_their_values()
    ensures { LoweredHaveTheirValues }
{}

/// The program of a query that has a type is well shaped, unless its stack would be too deep; and
/// its depth is the greatest of what its sections compute.
pub fn compiled_programs_are_well_shaped()
    ensures { CompiledAreWellShaped }
{}

/// The program of a query that has a type carries the query: what comes out of it is the query's
/// answer. Nothing is wanted of the rows: where the cells are of other shapes than the bounds say,
/// the machine has a fault or the query's answer.
pub fn compiled_programs_carry_their_queries()
    ensures { CompiledCarryTheirQueries }
{}

/// Over a ledger within its bounds, the program of a query that has a type has an answer, and this
/// is the query's.
pub fn compiled_programs_answer_their_queries()
    ensures { CompiledAnswerTheirQueries }
{
    compiled_programs_are_well_shaped();
    programs_run_safely_where_ledgers_fit();
    programs_have_one_answer();
    compiled_programs_carry_their_queries();
}
