//! Directives that no table tells, read back with their parts.

use bean_base::Text;
use bean_grammar::Value;
use bean_parser::DirectiveKind;
use bean_parser::parse::parse;
use std::test::Fail;

const DATED: &str = "2014-01-06 note Assets:Cash \"a
b
c\"
2014-01-07 document Assets:Cash \"f.pdf\" #t ^l
2014-01-08 price USD 1.25 CAD
2014-01-09 event \"where\" \"here\"
2014-01-10 query \"q\" \"SELECT *\"
2014-01-11 custom \"budget\" Assets:Cash 1 USD TRUE
";

/// Whether a directive that booking passes over is the one that stands there in the text.
fn is_as_written(place: usize, kind: &DirectiveKind<'_>) -> bool {
    match (place, kind) {
        (0, DirectiveKind::Note(note)) => note.text == Text::new("a\nb\nc"),
        (1, DirectiveKind::Document(document)) => document.marks.as_slice().len() == 2,
        (2, DirectiveKind::Price(price)) => price.get().amount.number.count == 125,
        (3, DirectiveKind::Event(event)) => event.value == Text::new("here"),
        (4, DirectiveKind::Query(query)) => query.query == Text::new("SELECT *"),
        (5, DirectiveKind::Custom(custom)) => matches!(
            custom.values.as_slice(),
            [Value::Account(_), Value::Amount(_), Value::Truth(true)]
        ),
        _ => false,
    }
}

#[test]
fn what_booking_passes_over(rt: HostRuntime) -> Result<(), Fail> {
    let parsed = parse(rt.alloc(), DATED)?;
    let directives = parsed.directives.as_slice();
    assert_eq!(rt; directives.len(), 6);
    for (place, directive) in directives.iter().enumerate() {
        assert!(rt; is_as_written(place, &directive.get().kind));
    }
    Ok(())
}
