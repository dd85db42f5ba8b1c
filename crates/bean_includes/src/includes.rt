//! The include lines of a text, without the rest of what it says.
ghost use Rattle.std.specs.Prelude.{◌≡◌, IfOk, OnOk, MatchBool};
ghost use Rattle.bean_includes.specs.Includes as spec;
ghost use Rattle.bean_includes.specs.Includes.{AddsInclude, AreIncludeLines, HasIncludeWord};
ghost use Rattle.bean_includes.specs.Includes.{IsIncludeOf};

use bean_base::Text;
use bean_directives::{SettingKind, Undated, UndatedKind};
use bean_grammar::front::after_keyword;
use bean_lexer::{Keyword, Lexer, Token};
use bean_parser::{Outcome, Statement, next_block, read_block};
use memchr::memmem;
use std::alloc::{AllocError, Global};

/// An include line.
#[derive(Drop)]
pub struct IncludeLine<'a> {
    /// The line on which it is written, from 1.
    pub line: usize,
    /// The name that is written on it.
    pub name: Text<'a>,
}

fn include_of<'a>(undated: &Undated<'a>) -> Option<IncludeLine<'a>>
    ensures { result ≡ spec.include_of undated.now.line undated.now.kind }
{
    let UndatedKind::Setting(kind) = &undated.kind else {
        return None;
    };
    match kind {
        SettingKind::Include(name) => Some(IncludeLine {
            line: undated.line,
            name: name.lend(),
        }),
        _ => None,
    }
}

/// The include line that a block gave, if it gave one.
fn include_in<'a>(outcome: &Outcome<'a>) -> Option<IncludeLine<'a>>
    ensures { result ≡ spec.include_in outcome.now }
{
    match outcome {
        Outcome::Statement(Statement::Undated(undated)) => include_of(undated),
        _ => None,
    }
}

/// The include line that a block gives, if it gives one: only one that begins with the word does.
fn include_at<'a>(alloc: Global, block: &[Token<'a>]) -> Result<Option<IncludeLine<'a>>, AllocError>
    ensures { IfOk result (IsIncludeOf block.now) }
{
    let Some(_) = after_keyword(block, Keyword::Include) else {
        return Ok(None);
    };
    let outcome = read_block(alloc, block)?;
    Ok(include_in(&outcome))
}

/// Adds the include line that a block gives, if it gives one.
fn add_include<'a>(
    alloc: Global,
    block: &[Token<'a>],
    found: &mut Vec<IncludeLine<'a>>,
) -> Result<(), AllocError>
    ensures { OnOk result (AddsInclude block.now found.old.items found.new.items) }
{
    match include_at(alloc, block)? {
        Some(include) => {
            found.push(include)?;
            Ok(())
        }
        None => Ok(()),
    }
}

/// Whether a line of a text begins with the word `include`. It is found by a search of bytes, which
/// is much faster than to read tokens.
fn has_include_word(text: &str) -> bool
    ensures { MatchBool result (HasIncludeWord text.now) (HasIncludeWord text.now → ⊥) }
{
    let bytes = text.as_bytes();
    bytes.starts_with(b"include") || memmem::find(bytes, b"\ninclude").is_some()
}

/// The include lines of a text, in order: those among the settings that its blocks give. Where no
/// line begins with the word `include` there are none. Else it reads the text's tokens, and no
/// block but those that begin with the word.
pub fn include_lines(alloc: Global, text: &str) -> Result<Vec<IncludeLine<'_>>, AllocError>
    ensures { IfOk result (λ found. AreIncludeLines text.now found.items) }
{
    let mut found = Vec::new(alloc);
    if !has_include_word(text) {
        return Ok(found);
    }
    let mut block = Vec::new(alloc);
    let mut lexer = Lexer::new(text);
    while next_block(&mut lexer, &mut block)? {
        add_include(alloc, &block, &mut found)?;
    }
    Ok(found)
}
