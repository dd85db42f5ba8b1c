//! The functions of the query language.
ghost use Rattle.std.specs.Prelude.{◌≡◌};
ghost use Rattle.bql_tree.specs.Function as functions;

/// Where an expression stands, which decides what it may name.
#[derive(Clone, Copy, Drop, PartialEq, Eq)]
pub enum Scope {
    /// In FROM, which filters transactions.
    Transactions,
    /// Elsewhere.
    Postings,
}

/// A function, whatever it is given.
#[derive(Clone, Copy, Drop, PartialEq, Eq)]
pub enum Function {
    Root,
    Parent,
    Leaf,
    Length,
    Units,
    Cost,
    Year,
    Month,
    Day,
    Number,
    Currency,
    Abs,
    /// An entry of the posting's metadata.
    Meta,
    /// An entry of the transaction's metadata.
    EntryMeta,
    /// An entry of the posting's metadata, or else of the transaction's.
    AnyMeta,
    HasAccount,
    Count,
    Sum,
    First,
    Last,
    Min,
    Max,
    /// Whether the first is one of the others: `IN` with a list.
    OneOf,
    /// The place of an account's root among the roots: 0 for Assets to 4 for Expenses, and 5 for
    /// other texts. No query can name it: the rows of a BALANCES are ordered by it.
    RootRank,
}

/// All functions that a query can name.
pub const FUNCTIONS: [Function; 22] = [
    Function::Sum,
    Function::Count,
    Function::Root,
    Function::Parent,
    Function::Leaf,
    Function::Length,
    Function::Units,
    Function::Cost,
    Function::Year,
    Function::Month,
    Function::Day,
    Function::Number,
    Function::Currency,
    Function::Abs,
    Function::Meta,
    Function::EntryMeta,
    Function::AnyMeta,
    Function::HasAccount,
    Function::First,
    Function::Last,
    Function::Min,
    Function::Max,
];

impl Function {
    /// The name of the function in small letters; `IN` with a list has none.
    pub fn name(self) -> &'static str
        ensures { result.now ≡ functions.name self }
    {
        match self {
            Function::Root => "root",
            Function::Parent => "parent",
            Function::Leaf => "leaf",
            Function::Length => "length",
            Function::Units => "units",
            Function::Cost => "cost",
            Function::Year => "year",
            Function::Month => "month",
            Function::Day => "day",
            Function::Number => "number",
            Function::Currency => "currency",
            Function::Abs => "abs",
            Function::Meta => "meta",
            Function::EntryMeta => "entry_meta",
            Function::AnyMeta => "any_meta",
            Function::HasAccount => "has_account",
            Function::Count => "count",
            Function::Sum => "sum",
            Function::First => "first",
            Function::Last => "last",
            Function::Min => "min",
            Function::Max => "max",
            Function::OneOf => "",
            Function::RootRank => "root_rank",
        }
    }

    /// The function of a name, in small or capital letters.
    fn named(name: &str) -> Option<Function>
        ensures { result ≡ functions.named name.now }
    {
        FUNCTIONS
            .iter()
            .copied()
            .find(|function| name.eq_ignore_ascii_case(function.name()))
    }

    /// Whether the function may stand there.
    fn is_known_in(self, scope: Scope) -> bool
        ensures { result ≡ functions.is_known_in scope self }
    {
        match scope {
            Scope::Transactions => !matches!(self, Function::Meta | Function::AnyMeta),
            Scope::Postings => !matches!(self, Function::HasAccount),
        }
    }

    /// The function of a name, if it may stand there.
    pub fn known(name: &str, scope: Scope) -> Option<Function>
        ensures { result ≡ functions.known scope name.now }
    {
        match Function::named(name) {
            Some(function) if function.is_known_in(scope) => Some(function),
            _ => None,
        }
    }
}

/// Whether a name is that word, in small or capital letters.
fn is_word(name: &str, word: &str) -> bool
    ensures { result ≡ functions.is_word name.now word.now }
{
    name.eq_ignore_ascii_case(word)
}

/// Whether the profile leaves a clause out that has the name.
fn is_clause_left_out(name: &str) -> bool
    ensures { result ≡ functions.is_clause_left_out name.now }
{
    is_word(name, "open")
        || is_word(name, "on")
        || is_word(name, "close")
        || is_word(name, "clear")
        || is_word(name, "having")
        || is_word(name, "pivot")
        || is_word(name, "flatten")
        || is_word(name, "print")
        || is_word(name, "run")
}

/// Whether the profile leaves a word out, in small or capital letters.
pub fn is_left_out(name: &str) -> bool
    ensures { result ≡ functions.is_left_out name.now }
{
    is_clause_left_out(name)
        || is_word(name, "safediv")
        || is_word(name, "avg")
        || is_word(name, "convert")
        || is_word(name, "value")
        || is_word(name, "today")
        || is_word(name, "maxwidth")
}
