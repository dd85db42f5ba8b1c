//! The kinds of tokens.
ghost use Rattle.std.specs.Prelude.{◌≡◌};
ghost use Rattle.bql_lexer.specs.Kind as kinds;

/// What a token is.
#[derive(Clone, Copy, PartialEq, Eq)]
pub enum Kind {
    Name,
    /// Digits, and a point with digits behind them.
    Number,
    /// What stands between two quotes.
    Text,
    /// A day by its form, whether it exists or not.
    Day,
    Select,
    Distinct,
    From,
    Where,
    Group,
    By,
    Order,
    Asc,
    Desc,
    Limit,
    As,
    Journal,
    At,
    Balances,
    Or,
    And,
    Not,
    In,
    True,
    False,
    Null,
    Equal,
    NotEqual,
    Less,
    LessOrEqual,
    Greater,
    GreaterOrEqual,
    Tilde,
    Plus,
    Minus,
    Star,
    Slash,
    OpenParenthesis,
    CloseParenthesis,
    Comma,
    Semicolon,
    /// What is left of the text where no token begins.
    Fault,
}

/// The words of the language.
pub const WORDS: [Kind; 21] = [
    Kind::Select,
    Kind::And,
    Kind::Where,
    Kind::As,
    Kind::From,
    Kind::Group,
    Kind::Order,
    Kind::By,
    Kind::Or,
    Kind::Not,
    Kind::In,
    Kind::Desc,
    Kind::Asc,
    Kind::Limit,
    Kind::Distinct,
    Kind::At,
    Kind::Journal,
    Kind::Balances,
    Kind::True,
    Kind::False,
    Kind::Null,
];

impl Kind {
    /// How a word of the language is written in small letters. No other kind has a spelling.
    pub fn spelling(self) -> &'static str
        ensures { result.now ≡ kinds.spelling self }
    {
        match self {
            Kind::Select => "select",
            Kind::Distinct => "distinct",
            Kind::From => "from",
            Kind::Where => "where",
            Kind::Group => "group",
            Kind::By => "by",
            Kind::Order => "order",
            Kind::Asc => "asc",
            Kind::Desc => "desc",
            Kind::Limit => "limit",
            Kind::As => "as",
            Kind::Journal => "journal",
            Kind::At => "at",
            Kind::Balances => "balances",
            Kind::Or => "or",
            Kind::And => "and",
            Kind::Not => "not",
            Kind::In => "in",
            Kind::True => "true",
            Kind::False => "false",
            Kind::Null => "null",
            _ => "",
        }
    }

    fn is_spelled(self, word: &str) -> bool
        ensures { result ≡ kinds.is_spelled word.now self }
    {
        word.eq_ignore_ascii_case(self.spelling())
    }

    fn word(word: &str) -> Option<Kind>
        ensures { result ≡ kinds.word word.now }
    {
        WORDS.iter().copied().find(|kind| kind.is_spelled(word))
    }

    /// The kind of a word or a name.
    pub fn of_word(word: &str) -> Kind
        ensures { result ≡ kinds.word_kind word.now }
    {
        match Kind::word(word) {
            Some(kind) => kind,
            None => Kind::Name,
        }
    }
}
