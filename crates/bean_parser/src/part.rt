//! Where blocks and lines begin.
ghost use Rattle.std.specs.Prelude.{◌≡◌, ◌<◌, ◌≤◌, [], ◌∷◌, length, not, MatchOption, IfSome};
ghost use Rattle.std.specs.List.{prefix_len};
ghost use Rattle.theory.specs.Cut.{cut_before};
ghost use Rattle.bean_parser.specs.Block as spec;
ghost use Rattle.bean_parser.specs.Part as parts;
ghost use Rattle.bean_parser.specs.Part.{begins};

use bean_lexer::{Place, Token};

/// What a list of tokens is cut into.
#[derive(Clone, Copy)]
pub enum Part {
    Block,
    Line,
}

impl Part {
    /// Whether a token at this place begins a part.
    pub fn begins_at(self, place: Place) -> bool
        ensures { result ≡ parts.begins_at self place }
    {
        match (self, place) {
            (_, Place::ColumnOne) => true,
            (Part::Line, Place::Indented) => true,
            (_, _) => false,
        }
    }
}

/// How many tokens stand before the first one that begins a part.
fn reach(part: Part, tokens: &[Token<'_>]) -> usize
    ensures len { result ≡ prefix_len (λ t. not (begins part t)) tokens.now }
    ensures inside { result ≤ length tokens.now }
{
    tokens
        .iter()
        .take_while(|token| !part.begins_at(token.place))
        .count()
}

/// The first block or line, and what stands behind it.
pub fn first_part<'t, 'a>(
    part: Part,
    tokens: &'t [Token<'a>],
) -> Option<(&'t [Token<'a>], &'t [Token<'a>])>
    ensures front { MatchOption result (tokens.now ≡ [])
        (λ r. cut_before (begins part) tokens.now
        ≡ r.0.now ∷ cut_before (begins part) r.1.now) }
    ensures same_line { IfSome result
        (λ r. spec.first_line r.0.now ≡ spec.first_line tokens.now) }
    ensures shorter { IfSome result (λ r. length r.1.now < length tokens.now) }
{
    let (_, others) = tokens.split_first()?;
    Some(tokens.split_at(1 + reach(part, others)))
}

/// The line on which tokens begin.
pub fn first_line(tokens: &[Token<'_>]) -> usize
    ensures { result ≡ spec.first_line tokens.now }
{
    match tokens.first() {
        Some(token) => token.line,
        None => 0,
    }
}
