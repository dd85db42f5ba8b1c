//! The kinds of tokens.
ghost use Rattle.std.specs.Prelude.{◌≡◌};

/// A word of the ledger language, written in small letters, or a truth value.
#[derive(Clone, Copy, PartialEq, Eq)]
pub enum Keyword {
    Open,
    Close,
    Commodity,
    Txn,
    Balance,
    Pad,
    Note,
    Document,
    Price,
    Event,
    Query,
    Custom,
    Option,
    Include,
    Plugin,
    PushTag,
    PopTag,
    PushMeta,
    PopMeta,
    True,
    False,
}

impl Keyword {
    ghost use Rattle.bean_lexer.specs.TokenForm.{keyword_spelling};

    /// How the word is written.
    pub fn spelling(self) -> &'static str
        ensures { result.now ≡ keyword_spelling self }
    {
        match self {
            Keyword::Open => "open",
            Keyword::Close => "close",
            Keyword::Commodity => "commodity",
            Keyword::Txn => "txn",
            Keyword::Balance => "balance",
            Keyword::Pad => "pad",
            Keyword::Note => "note",
            Keyword::Document => "document",
            Keyword::Price => "price",
            Keyword::Event => "event",
            Keyword::Query => "query",
            Keyword::Custom => "custom",
            Keyword::Option => "option",
            Keyword::Include => "include",
            Keyword::Plugin => "plugin",
            Keyword::PushTag => "pushtag",
            Keyword::PopTag => "poptag",
            Keyword::PushMeta => "pushmeta",
            Keyword::PopMeta => "popmeta",
            Keyword::True => "TRUE",
            Keyword::False => "FALSE",
        }
    }
}

/// The words in small letters.
pub const WORDS: [Keyword; 19] = [
    Keyword::Open,
    Keyword::Txn,
    Keyword::Balance,
    Keyword::Price,
    Keyword::Close,
    Keyword::Commodity,
    Keyword::Pad,
    Keyword::Note,
    Keyword::Document,
    Keyword::Event,
    Keyword::Query,
    Keyword::Custom,
    Keyword::Option,
    Keyword::Include,
    Keyword::Plugin,
    Keyword::PushTag,
    Keyword::PopTag,
    Keyword::PushMeta,
    Keyword::PopMeta,
];

/// A sign of the ledger language.
#[derive(Clone, Copy, PartialEq, Eq)]
pub enum Sign {
    Star,
    Bang,
    Comma,
    Plus,
    Minus,
    OpenParenthesis,
    CloseParenthesis,
    OpenBrace,
    CloseBrace,
    /// `{{`
    OpenBraces,
    /// `}}`
    CloseBraces,
    At,
    /// `@@`
    AtAt,
    Tilde,
    Hash,
}

/// What a token is.
#[derive(Clone, Copy, PartialEq, Eq)]
pub enum Kind {
    /// A day by its form, whether it exists or not.
    Day,
    Number,
    /// A text with its quotes and escapes.
    Text,
    Account,
    Currency,
    /// A tag with its `#`.
    Tag,
    /// A link with its `^`.
    Link,
    /// A key with its colon.
    Key,
    Keyword(Keyword),
    Sign(Sign),
    /// An unclosed text, a text with a bad escape, or a character that begins no token.
    Fault,
}

/// Where a token stands in its line.
#[derive(Clone, Copy, Debug, PartialEq, Eq)]
pub enum Place {
    /// First in its line, in the first column.
    ColumnOne,
    /// First in its line, behind white space.
    Indented,
    /// Behind another token of its line, or behind a text that began on an earlier one.
    Inside,
}
