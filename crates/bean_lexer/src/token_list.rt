//! The tokens of a text, in order.
ghost use Rattle.std.specs.Prelude.{IfOk};
ghost use Rattle.bean_lexer.specs.Tokens.{AreTokens};
ghost use Rattle.bean_lexer.specs.OneListOfTokens.{HasOneListOfTokens, HasTokens};
ghost use Rattle.bean_lexer.specs.Between.{HasGaps};

use crate::lexer::Lexer;
use crate::token::Token;
use std::alloc::{AllocError, Allocator};

/// The tokens of a text, in order.
pub fn tokens<'a, A: Allocator>(alloc: A, text: &'a str) -> Result<Vec<Token<'a>, A>, AllocError>
    ensures { IfOk result (λ tokens. AreTokens text.now tokens.items) }
{
    let mut out = Vec::with_capacity(alloc, text.len() / 6)?;
    let mut lexer = Lexer::new(text);
    while let Some(token) = lexer.next_token() {
        out.push(token)?;
    }
    Ok(out)
}

/// A text has one list of tokens: there is one, and two that are its tokens are the same.
pub fn a_text_has_one_list_of_tokens(text: &str)
    ensures some { HasTokens text.now }
    ensures one { HasOneListOfTokens text.now }
{
    let _ = text;
}

/// What stands between the tokens of a text: white space, line feeds, comments, and lines that
/// begin with `*`, `:` or `#` in the first column; and a token begins at the first byte that is
/// none of these.
pub fn a_gap_is_white_space_comments_and_skipped_lines(text: &str)
    ensures { HasGaps text.now }
{
    let _ = text;
}
