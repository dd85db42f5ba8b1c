//! What queries mean: the value of an expression, and the rows that a query answers.
//!
//! `specs/Meaning` gives the value of an expression over some rows of a ledger, a group or one row
//! alone: columns are those of the first row, aggregates gather over all. Each form of expression
//! is a line, by the tables of [`query_values`]. `specs/Answer` says which rows pass, what the
//! running inventory is at each of them, which groups they make, and which rows come of these and
//! in which order. A program is right where its rows are these.
//!
//! There is nothing to run here: the functions are laws, whose contracts say what holds of the
//! definitions.
//!
//! ```text
//! SELECT account, sum(number) GROUP BY account ORDER BY 2
//! // over 10 USD of cash, 5 USD of gifts, -4 USD of cash: (gifts, 5), (cash, 6)
//! ```
//!
//! # What is taken for granted
//!
//! Nothing: a query that has no type has an answer too, in which what has no type is null. The
//! bounds of a query are asked only for the decimals that a sum has, and change nothing of it.
//!
//! # Cost
//!
//! None: these are laws, and nothing here runs.
#![tactic(auto)]

ghost use Rattle.bql_meaning.specs.Alignment.{AlignmentsChangeNothing, MembersMayBeAligned};
ghost use Rattle.bql_meaning.specs.Keys.{KeysAreOfTheGroup, KeysAreOfTheRows, KeysAreTyped};
ghost use Rattle.bql_meaning.specs.Keys.{ReadAtTheFirst};
ghost use Rattle.bql_meaning.specs.Laws.{AnswersAreOne, AnswersAreThere, BoundsChangeNoRows};
ghost use Rattle.bql_meaning.specs.Laws.{BoundsChangeNothing, QueriesHaveShortTexts};
ghost use Rattle.bql_meaning.specs.Laws.{SameAreBare, SameHaveOneValue};
ghost use Rattle.bql_meaning.specs.Planned.{PlansRankAsAsked};
ghost use Rattle.bql_meaning.specs.Shaped.{PassingAreRead, ValuesLieInTheirShapes};

/// A query has one answer over each list of rows.
pub fn answers_are_one()
    ensures there { AnswersAreThere }
    ensures one { AnswersAreOne }
{}

/// Expressions are the same where their trees are, places aside, and then they have the same value
/// over all rows.
pub fn same_expressions_have_one_value()
    ensures bare { SameAreBare }
    ensures value { SameHaveOneValue }
{}

/// What has no aggregates is read at the first row of a group, and so are the keys of a query that
/// has a type: there they have the values by which the group is told, and the same at each of its
/// rows.
pub fn keys_are_read_at_the_first_row()
    ensures first { ReadAtTheFirst }
    ensures group { KeysAreOfTheGroup }
    ensures rows { KeysAreOfTheRows }
    ensures typed { KeysAreTyped }
{}

/// Operands that are brought to the greater count of decimals first give what they give as they
/// are; and so do a number and the list in which it is looked for.
pub fn alignments_change_nothing()
    ensures operands { AlignmentsChangeNothing }
    ensures members { MembersMayBeAligned }
{}

/// The value of an expression is of its shape, where the cells of the rows are of theirs; and then
/// the running inventories of the rows that pass are.
pub fn values_lie_in_their_shapes()
    ensures values { ValuesLieInTheirShapes }
    ensures passing { PassingAreRead }
{}

/// By whichever bounds an expression has a shape, it has the same value; and by whichever bounds a
/// query has a type, its rows are the same.
pub fn bounds_change_nothing()
    ensures expressions { BoundsChangeNothing }
    ensures queries { BoundsChangeNoRows }
{}

/// Each text that an expression of a query writes is short, so what is said of values in their
/// shapes holds of all expressions of a query.
pub fn queries_have_short_texts()
    ensures { QueriesHaveShortTexts }
{}

/// The values of what a plan shows and hides, at the indices by which it orders rows, are those of
/// the targets and of the items of its query.
pub fn plans_rank_as_asked()
    ensures { PlansRankAsAsked }
{}
