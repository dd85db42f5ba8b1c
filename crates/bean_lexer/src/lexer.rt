//! One token of a text after the other. What reads a token is put in place where tokens are asked for,
//! since a call for each would hand over its answer in memory.
ghost use Rattle.std.specs.Prelude.{◌≡◌, ◌-◌, ◌<◌, ◌≤◌, length, drop};
ghost use Rattle.bean_lexer.specs.NoKeys.{NoKeys};
ghost use Rattle.bean_lexer.specs.Tokens.{line_at};

use crate::gaps::{Spot, gap_at};
use crate::token::Token;
use crate::token_at::token_at;
use bean_base::Slice;

/// Gives the tokens of a text one after the other. It takes no memory.
#[derive(Clone, Copy)]
pub struct Lexer<'a> {
    /// The text whole.
    pub text: &'a str,
    /// What is still to be read of it.
    pub rest: &'a str,
    /// The line on which the rest begins, from 1.
    pub line: usize,
    /// How much of the text was left where the last word ended that no colon follows: no key begins
    /// before that.
    pub keyless: usize,
    ghost inside: { length rest.now ≤ length text.now },
    ghost is_rest: { rest.now ≡ drop (length text.now - length rest.now) text.now },
    ghost is_line: { line ≡ line_at text.now (length text.now - length rest.now) },
    ghost no_keys: { NoKeys rest.now keyless },
}

impl<'a> Lexer<'a> {
    ghost use Rattle.std.specs.Prelude.{List, [], ◌∷◌, MatchOption};
    ghost use Rattle.std.specs.Option.{IfSome};
    ghost use Rattle.bean_lexer.specs.declared.token.Token.{Token};
    ghost use Rattle.bean_lexer.specs.Tokens.{AreTokens};
    ghost use Rattle.bean_lexer.specs.ToCome.{ToCome};

    /// All the tokens of a text are still to come.
    pub fn new(text: &'a str) -> Lexer<'a>
        ensures { (ts : List Token) → ToCome result ts → AreTokens text.now ts }
    {
        Lexer {
            text,
            rest: text,
            line: 1,
            keyless: text.len(),
        }
    }

    /// The next token, or none where there are no more.
    #[inline(always)]
    pub fn next_token(&mut self) -> Option<Token<'a>>
        ensures tokens { MatchOption result ((ToCome self.old []) × (self.new ≡ self.old))
            (λ t. (ts : List Token) → ToCome self.new ts → ToCome self.old (t ∷ ts)) }
        ensures shorter { IfSome result (λ _. length self.new.rest.now < length self.old.rest.now) }
    {
        let spot = Spot::at(self.text.len() - self.rest.len());
        let gap = gap_at(spot, self.rest.as_bytes());
        let (_, behind) = self.rest.split_at(gap.len);
        if behind.is_empty() {
            return None;
        }
        let mut keyless = self.keyless;
        let found = token_at(behind.as_bytes(), &mut keyless);
        let (text, rest) = behind.split_at(found.len);
        let token = Token {
            kind: found.kind,
            place: gap.place,
            text: Slice::new(text),
            start: self.text.len() - behind.len(),
            line: self.line + gap.line_feeds,
        };
        *self = Lexer {
            text: self.text,
            rest,
            line: token.line + found.line_feeds,
            keyless,
        };
        Some(token)
    }
}
