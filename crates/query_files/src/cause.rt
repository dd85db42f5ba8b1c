//! Why the text of a query gives no file.
use bql_compiler::CompileCause;
use bql_parser::QueryCause;
use bql_types::TypeCause;
use refusals::Cause;
use std::fmt;

/// What keeps the text of a query from being compiled, in the order in which it is looked for.
#[derive(Clone, Copy, Debug, Drop, PartialEq, Eq)]
pub enum TextCause {
    /// It is no query.
    Query(QueryCause),
    /// The query has no type.
    Typing(TypeCause),
    /// The query has no program.
    Compile(CompileCause),
}

impl Cause for TextCause {
    ghost use Rattle.query_files.specs.TextCause as rule;

    ghost code_of = { rule.code_of };

    ghost place_of = { rule.place_of };

    fn code(&self) -> &'static str {
        match self {
            TextCause::Query(cause) => cause.code(),
            TextCause::Typing(cause) => cause.code(),
            TextCause::Compile(cause) => cause.code(),
        }
    }

    fn place(&self) -> Option<usize> {
        match self {
            TextCause::Query(cause) => cause.place(),
            TextCause::Typing(cause) => cause.place(),
            TextCause::Compile(cause) => cause.place(),
        }
    }
}

impl fmt::Display for TextCause {
    fn fmt<W: fmt::Write>(&self, f: &mut fmt::Formatter<W>) -> fmt::Result {
        match self {
            TextCause::Query(cause) => fmt::Display::fmt(cause, f),
            TextCause::Typing(cause) => fmt::Display::fmt(cause, f),
            TextCause::Compile(cause) => fmt::Display::fmt(cause, f),
        }
    }
}
