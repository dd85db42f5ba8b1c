//! The tokens of worked texts.

use bean_lexer::{Keyword, Kind, Sign, tokens};
use std::alloc::{AllocError, Global};
use std::test::Fail;

fn kinds(alloc: Global, text: &str) -> Result<Vec<Kind>, AllocError> {
    tokens(alloc, text)?.iter().map(|t| t.kind).collect(alloc)
}

fn starts(alloc: Global, text: &str) -> Result<Vec<usize>, AllocError> {
    tokens(alloc, text)?.iter().map(|t| t.start).collect(alloc)
}

/// Texts with the kinds of their tokens.
const KINDS: [(&str, &[Kind]); 8] = [
    ("1 USD", &[Kind::Number, Kind::Currency]),
    ("Assets:Épargne:9-x", &[Kind::Account]),
    (
        "Assets:cash",
        &[
            Kind::Currency,
            Kind::Key,
            Kind::Fault,
            Kind::Fault,
            Kind::Fault,
            Kind::Fault,
        ],
    ),
    (
        "Assets:open",
        &[Kind::Currency, Kind::Key, Kind::Keyword(Keyword::Open)],
    ),
    (
        "TRUE TRUEX FALSE. A.",
        &[
            Kind::Keyword(Keyword::True),
            Kind::Currency,
            Kind::Keyword(Keyword::False),
            Kind::Fault,
            Kind::Currency,
            Kind::Fault,
        ],
    ),
    ("2014-01-02 2014", &[Kind::Day, Kind::Number]),
    (
        " #5 # ^a ^ @@ @ {{ {",
        &[
            Kind::Tag,
            Kind::Sign(Sign::Hash),
            Kind::Link,
            Kind::Fault,
            Kind::Sign(Sign::AtAt),
            Kind::Sign(Sign::At),
            Kind::Sign(Sign::OpenBraces),
            Kind::Sign(Sign::OpenBrace),
        ],
    ),
    (r#""a\q" "b\"" "c"#, &[Kind::Fault, Kind::Text, Kind::Fault]),
];

/// Texts with the places of their tokens' first bytes.
const STARTS: [(&str, &[usize]); 6] = [
    ("1 USD", &[0, 2]),
    ("ABCDEFGHIJKLMNOPQRSTUVWXY", &[0, 24]),
    ("1,2.5,3 1,,2", &[0, 5, 6, 8, 9, 10, 11]),
    ("opening", &[0, 4, 5, 6]),
    (r#""a\q" "b\"" "c"#, &[0, 6, 12]),
    ("éé%", &[0, 2, 4]),
];

#[test]
fn kinds_and_first_bytes_of_tokens(rt: HostRuntime) -> Result<(), Fail> {
    for (text, kinds_of) in KINDS {
        assert!(rt; kinds(rt.alloc(), text)?.as_slice() == kinds_of);
    }
    for (text, starts_of) in STARTS {
        assert_eq!(rt; starts(rt.alloc(), text)?.as_slice(), starts_of);
    }
    Ok(())
}
