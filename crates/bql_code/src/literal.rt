//! The texts and constants of expressions.
ghost use Rattle.std.specs.Prelude.{◌≡◌, ◌≤◌, length};
ghost use Rattle.limits.specs.declared.counts.TheConstants.{LARGEST_QUERY};
ghost use Rattle.query_code.specs.TextForm as text_form;

use bean_base::{Day, List, Slice};
use query_code::Numbers;
use query_terms::Decimal;

/// A text that a file can hold: one of at most 65,535 bytes.
#[derive(Drop)]
pub struct ShortText<'a> {
    pub text: Slice<'a>,
    ghost has_form: { ∥ text_form.text.fits text ∥₁ },
}

impl<'a> ShortText<'a> {
    /// The text of a slice.
    pub fn new(slice: &Slice<'a>) -> ShortText<'a>
        requires { length slice.now ≤ LARGEST_QUERY }
        ensures { result.text ≡ slice.now }
    {
        ShortText::of(slice.text())
    }

    fn of(text: &'a str) -> ShortText<'a>
        requires { length text.now ≤ LARGEST_QUERY }
        ensures { result.text ≡ text.now }
    {
        ShortText {
            text: Slice::new(text),
        }
    }

    /// The same text once more.
    pub fn lend(&self) -> ShortText<'a>
        ensures { result.text ≡ self.now.text }
    {
        ShortText {
            text: self.text.lend(),
        }
    }
}

/// A constant that an expression writes.
pub enum Literal<'a> {
    Text(ShortText<'a>),
    Number(Decimal),
    Day(Day),
    /// A regular expression.
    Pattern(ShortText<'a>),
    Texts(List<ShortText<'a>>),
    Numbers(Numbers),
    Days(List<Day>),
}

/// Written out, so that what gives one up needs to know nothing of what is in it.
impl Drop for Literal<'_> {
    fn drop(self) {
        match self {
            Literal::Text(_) | Literal::Pattern(_) => {}
            Literal::Number(_) => {}
            Literal::Day(_) => {}
            Literal::Texts(_) => {}
            Literal::Numbers(_) => {}
            Literal::Days(_) => {}
        }
    }
}
