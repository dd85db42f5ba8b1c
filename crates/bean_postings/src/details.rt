//! What postings have beside their account and their units.
ghost use Rattle.std.specs.Prelude.{◌≡◌};
ghost use Rattle.bean_postings.specs.Details as rule;

use crate::cost::Cost;
use crate::price::Price;
use bean_base::{Few, Flag};
use bean_grammar::MetaEntry;

/// The line of a posting, and a flag, a cost, a price and entries, each of which may be absent.
pub struct DetailParts<'a> {
    pub cost: Cost<'a>,
    pub price: Price<'a>,
    /// The entries that stand under the posting, in order.
    pub metadata: Few<MetaEntry<'a>>,
    /// The line on which the posting is written, from 1.
    pub line: usize,
    pub flag: Option<Flag>,
}

/// Written out, so that what gives one up needs to know nothing of what is in it.
impl Drop for DetailParts<'_> {
    fn drop(self) {
        let DetailParts {
            cost: _,
            price: _,
            metadata: _,
            line: _,
            flag: _,
        } = self;
    }
}

impl<'a> DetailParts<'a> {
    /// A line that has nothing but its number.
    pub(crate) fn alone(line: usize) -> DetailParts<'a>
        ensures { result ≡ rule.alone line }
    {
        DetailParts {
            cost: Cost::Absent,
            price: Price::Absent,
            metadata: Few::new(),
            line,
            flag: None,
        }
    }
}
