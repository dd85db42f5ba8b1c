//! What is asked of most bytes of a text, by tables.
ghost use Rattle.std.specs.Prelude.{◌≡◌};
ghost use Rattle.bean_base.specs.Name.{is_in_component};
ghost use Rattle.bean_lexer.specs.Gap as gap;
ghost use Rattle.bean_lexer.specs.Lookahead.{is_in_plain_text};

use byte_runs::{COMPONENT_BYTES, PLAIN_TEXT_BYTES, TOKEN_STARTS};

/// Whether a byte goes on a component of an account.
#[inline(always)]
#[tactic(auto, using(crate::proofs::TableFacts::component_bytes))]
pub fn goes_on_component(b: u8) -> bool
    ensures { result ≡ is_in_component b }
{
    COMPONENT_BYTES[b as usize]
}

/// Whether a byte begins a token, where a gap ends: neither white nor a line feed nor a semicolon.
#[inline(always)]
#[tactic(auto, using(crate::proofs::TableFacts::token_starts))]
pub fn begins_token(b: u8) -> bool
    ensures { result ≡ gap.begins_token b }
{
    TOKEN_STARTS[b as usize]
}

/// Whether a byte goes on a text in its line, without an escape.
#[inline(always)]
#[tactic(auto, using(crate::proofs::TableFacts::plain_text_bytes))]
pub fn goes_on_plain_text(b: u8) -> bool
    ensures { result ≡ is_in_plain_text b }
{
    PLAIN_TEXT_BYTES[b as usize]
}
