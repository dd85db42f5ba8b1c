//! What the texts of a ledger say together.

use crate::made::store_of;
use bean_base::Text;
use bean_load::{gather, load};
use bean_loaded::Loaded;
use std::test::Fail;

const FILES: [(&str, &str); 2] = [
    (
        "l",
        "option \"operating_currency\" \"USD\"\ninclude \"a\"\noption \"operating_currency\" \"CHF\"\n",
    ),
    (
        "a",
        "option \"title\" \"Books\"\noption \"operating_currency\" \"EUR\"\n",
    ),
];

/// Whether these are the operating currencies, in this order.
fn are_operating(loaded: &Loaded<'_>, texts: &[&str]) -> bool {
    let operating = loaded.operating();
    if operating.len() != texts.len() {
        return false;
    }
    for (one, text) in operating.iter().zip(texts) {
        if *one != Text::new(text) {
            return false;
        }
    }
    true
}

#[test]
fn settings_in_reading_order(rt: HostRuntime) -> Result<(), Fail> {
    let mut store = store_of(rt.alloc(), &FILES, 0)?;
    let texts = gather(rt.alloc(), &mut store, "l")?;
    let loaded = load(rt.alloc(), &texts)?;
    assert!(rt; loaded.title() == Some(Text::new("Books")));
    assert!(rt; are_operating(&loaded, &["USD", "EUR", "CHF"]));
    Ok(())
}
