//! The columns of the postings.
ghost use Rattle.std.specs.Prelude.{◌≡◌};
ghost use Rattle.query_terms.specs.Column as columns;
ghost use Rattle.query_terms.specs.Column.{ColumnsHaveNumbers, NumbersAreOfColumns};

use limits::Version;

/// A column of the postings.
#[derive(Clone, Copy, Drop, PartialEq, Eq)]
pub enum Column {
    Date,
    Year,
    Month,
    Day,
    Flag,
    Payee,
    Narration,
    Tags,
    Links,
    Account,
    PostingFlag,
    Number,
    Currency,
    CostNumber,
    CostCurrency,
    CostDate,
    CostLabel,
    Position,
    Weight,
    Balance,
    Lineno,
    /// The accounts of all postings of the transaction.
    Accounts,
    /// What a unit of the posting is priced at, behind `@`.
    Price,
}

/// All columns, by their numbers.
pub const COLUMNS: [Column; 23] = [
    Column::Date,
    Column::Year,
    Column::Month,
    Column::Day,
    Column::Flag,
    Column::Payee,
    Column::Narration,
    Column::Tags,
    Column::Links,
    Column::Account,
    Column::PostingFlag,
    Column::Number,
    Column::Currency,
    Column::CostNumber,
    Column::CostCurrency,
    Column::CostDate,
    Column::CostLabel,
    Column::Position,
    Column::Weight,
    Column::Balance,
    Column::Lineno,
    Column::Accounts,
    Column::Price,
];

/// The same, where they stay: looking one up builds none of them.
static NUMBERED: [Column; 23] = COLUMNS;

impl Column {
    /// The name of the column in small letters. No query can write that of `Accounts`.
    pub fn name(self) -> &'static str
        ensures { result.now ≡ columns.name self }
    {
        match self {
            Column::Date => "date",
            Column::Year => "year",
            Column::Month => "month",
            Column::Day => "day",
            Column::Flag => "flag",
            Column::Payee => "payee",
            Column::Narration => "narration",
            Column::Tags => "tags",
            Column::Links => "links",
            Column::Account => "account",
            Column::PostingFlag => "posting_flag",
            Column::Number => "number",
            Column::Currency => "currency",
            Column::CostNumber => "cost_number",
            Column::CostCurrency => "cost_currency",
            Column::CostDate => "cost_date",
            Column::CostLabel => "cost_label",
            Column::Position => "position",
            Column::Weight => "weight",
            Column::Balance => "balance",
            Column::Lineno => "lineno",
            Column::Accounts => "accounts",
            Column::Price => "price",
        }
    }

    /// The column of a name, in small or capital letters.
    pub fn named(name: &str) -> Option<Column>
        ensures { result ≡ columns.named name.now }
    {
        COLUMNS.iter().copied().find(|column| column.has_name()
            && name.eq_ignore_ascii_case(column.name()))
    }

    /// Whether a query can name the column. The accounts of a transaction are read by
    /// `HAS_ACCOUNT` alone.
    pub fn has_name(self) -> bool
        ensures { result ≡ columns.has_name self }
    {
        !matches!(self, Column::Accounts)
    }

    /// The number of the column in the file of a query.
    pub fn number(self) -> u8
        ensures { result ≡ columns.number self }
    {
        self as u8
    }

    /// The column of a number.
    pub fn numbered(number: u8) -> Option<Column>
        ensures { result ≡ columns.numbered number }
    {
        let place = number as usize;
        if place < NUMBERED.len() {
            Some(NUMBERED[place])
        } else {
            None
        }
    }

    /// Whether postings have the column in a schema: the first knows no prices.
    pub fn is_in(self, schema: Version) -> bool
        ensures { result ≡ columns.is_in schema self }
    {
        !matches!((schema, self), (Version::First, Column::Price))
    }

    /// Whether the column is the transaction's, and one of those that FROM knows.
    pub fn is_of_transaction(self) -> bool
        ensures { result ≡ columns.is_of_transaction self }
    {
        matches!(
            self,
            Column::Date
                | Column::Year
                | Column::Month
                | Column::Day
                | Column::Flag
                | Column::Payee
                | Column::Narration
                | Column::Tags
                | Column::Links
        )
    }
}

/// Each column has a number, and no two have the same.
pub fn columns_are_numbered_once()
    ensures columns { ColumnsHaveNumbers }
    ensures numbers { NumbersAreOfColumns }
{}
