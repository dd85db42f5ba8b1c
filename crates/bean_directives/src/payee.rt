//! The payee of a transaction, in the room of a text.
ghost use Rattle.std.specs.Prelude.{◌≡◌, Some, None};
ghost use Rattle.bean_directives.specs.Payee as spec;

use bean_base::Text;
use std::marker::Model;

/// The payee of a transaction, or none. Contracts see what it stands for.
#[derive(Drop)]
pub struct Payee<'a> {
    /// What is written between its quotes. Where there is no payee it is a quote alone: between
    /// quotes none stands without a backslash.
    written: &'a str,
}

impl<'a> Model for Payee<'a> {
    ghost use Rattle.std.specs.Prelude.{List, Option, ℕ};
    ghost use Rattle.bean_directives.specs.Payee.{payee_in};

    ghost Value = { Option (List ℕ) };

    ghost view = { λ p. payee_in p.written.now };
}

/// Whether a written text is a quote alone.
fn is_quote(written: &str) -> bool
    ensures { result ≡ spec.is_quote written.now }
{
    matches!(written.as_bytes(), [b'"'])
}

impl<'a> Payee<'a> {
    /// No payee.
    pub fn none() -> Payee<'a>
        ensures { result ≡ None }
    {
        Payee { written: "\"" }
    }

    /// The payee that a text stands for.
    #[tactic(auto, using(crate::proofs::PayeeFacts::quote_read))]
    pub fn new(text: Text<'a>) -> Payee<'a>
        ensures { result ≡ Some text.entry }
    {
        let written = text.written();
        if is_quote(written) {
            // The same text with its backslash.
            return Payee { written: "\\\"" };
        }
        Payee { written }
    }

    /// The payee, if there is one.
    pub fn text(&self) -> Option<Text<'a>>
        ensures { result ≡ self.now }
    {
        if is_quote(self.written) {
            return None;
        }
        Some(Text::new(self.written))
    }
}
