//! The first line of a directive.
ghost use Rattle.std.specs.Prelude.{◌≡◌, MatchOption, IfSome, IfOk};
ghost use Rattle.theory.specs.Form.{Reads, HasNone};
ghost use Rattle.bean_grammar.specs.Lexeme as lexeme;
ghost use Rattle.bean_grammar.specs.Lexeme.{lexemes, lexeme_of};
ghost use Rattle.bean_grammar.specs.declared.ranged.Ranged.TheVariants.{Within};
ghost use Rattle.bean_directives.specs.Head as rule;
ghost use Rattle.bean_directives.specs.declared.directive.DirectiveKind.TheVariants as kinds;

use crate::accounts::{close_line, open_line, pad_line};
use crate::directive::DirectiveKind;
use crate::notes::{custom_line, document_line, event_line, note_line, query_line};
use crate::numbers::{balance_line, commodity_line, price_line};
use crate::stretch::Stretch;
use crate::transaction::{Transaction, transaction_line, words};
use bean_base::{Day, Flag};
use bean_grammar::Ranged;
use bean_grammar::front::next;
use bean_grammar::literal::day;
use bean_lexer::{Keyword, Kind, Sign, Token};
use bean_postings::posting_line::after_flag_sign;
use given_items::WithGiven;
use std::alloc::{AllocError, Global};

/// What stands behind a word that tells the kind, and what stands behind that. It stays a call of its
/// own, since nearly all directives are told by a sign.
#[inline(never)]
fn kind_behind_word<'t, 'a>(
    alloc: Global,
    word: Keyword,
    tokens: &'t [Token<'a>],
) -> Result<Option<(Ranged<DirectiveKind<'a>>, &'t [Token<'a>])>, AllocError>
    ensures { IfOk result (λ o. MatchOption o
        (HasNone (rule.kind_behind (lexeme.Keyword word)) (lexemes tokens.now))
        (λ r. Reads (rule.kind_behind (lexeme.Keyword word)) (lexemes tokens.now)
        r.0 (lexemes r.1.now))) }
{
    match word {
        Keyword::Txn => Ok(Some(transaction_line(alloc, Flag::Complete, tokens)?)),
        Keyword::Open => open_line(alloc, tokens),
        Keyword::Close => Ok(close_line(tokens)),
        Keyword::Commodity => Ok(commodity_line(tokens)),
        Keyword::Balance => balance_line(alloc, tokens),
        Keyword::Pad => Ok(pad_line(tokens)),
        Keyword::Note => Ok(note_line(tokens)),
        Keyword::Document => document_line(alloc, tokens),
        Keyword::Price => price_line(alloc, tokens),
        Keyword::Event => Ok(event_line(tokens)),
        Keyword::Query => Ok(query_line(tokens)),
        Keyword::Custom => custom_line(alloc, tokens),
        _ => Ok(None),
    }
}

/// What stands behind a sign that tells the kind, and what stands behind that.
fn kind_behind_sign<'t, 'a>(
    alloc: Global,
    mark: Sign,
    tokens: &'t [Token<'a>],
) -> Result<Option<(Ranged<DirectiveKind<'a>>, &'t [Token<'a>])>, AllocError>
    ensures { IfOk result (λ o. MatchOption o
        (HasNone (rule.kind_behind (lexeme.Sign mark)) (lexemes tokens.now))
        (λ r. Reads (rule.kind_behind (lexeme.Sign mark)) (lexemes tokens.now)
        r.0 (lexemes r.1.now))) }
{
    match mark {
        Sign::Star => Ok(Some(transaction_line(alloc, Flag::Complete, tokens)?)),
        Sign::Bang => Ok(Some(transaction_line(alloc, Flag::Incomplete, tokens)?)),
        _ => Ok(None),
    }
}

/// What stands behind the token that tells the kind, and what stands behind that.
fn kind_behind<'t, 'a>(
    alloc: Global,
    first: &Token<'a>,
    tokens: &'t [Token<'a>],
) -> Result<Option<(Ranged<DirectiveKind<'a>>, &'t [Token<'a>])>, AllocError>
    ensures { IfOk result (λ o. MatchOption o
        (HasNone (rule.kind_behind (lexeme_of first.now)) (lexemes tokens.now))
        (λ r. Reads (rule.kind_behind (lexeme_of first.now)) (lexemes tokens.now)
        r.0 (lexemes r.1.now))) }
{
    match first.kind {
        Kind::Sign(mark) => kind_behind_sign(alloc, mark, tokens),
        Kind::Keyword(word) => kind_behind_word(alloc, word, tokens),
        _ => Ok(None),
    }
}

/// The day and the kind of a directive that has this first line.
pub fn head<'a>(
    alloc: Global,
    line: &[Token<'a>],
) -> Result<Option<(Ranged<Day>, Ranged<DirectiveKind<'a>>)>, AllocError>
    ensures { IfOk result (λ o. MatchOption o (rule.IsNoHead (lexemes line.now))
        (λ r. rule.IsHead (lexemes line.now) r.0 r.1)) }
{
    let Some((day, rest)) = day(line) else {
        return Ok(None);
    };
    let Some((first, rest)) = next(rest) else {
        return Ok(None);
    };
    let Some(found) = kind_behind(alloc, first, rest)? else {
        return Ok(None);
    };
    let (kind, rest) = found;
    match next(rest) {
        Some(_) => Ok(None),
        None => Ok(Some((day, kind))),
    }
}

/// The day and the transaction of a first line that has a day of the calendar, a sign and at most two
/// texts. Nearly all first lines are such, and are read without a look at what others have.
#[inline(always)]
pub fn plain_head<'a>(line: &[Token<'a>]) -> Option<(Day, Transaction<'a>)>
    ensures { IfSome result (λ r. rule.IsHead (lexemes line.now) (Within r.0)
        (Within (kinds.Transaction r.1))) }
{
    let (found, rest) = day(line)?;
    let Ranged::Within(day) = found else {
        return None;
    };
    let (flag, rest) = after_flag_sign(rest)?;
    let (words, rest) = words(rest);
    match next(rest) {
        Some(_) => None,
        None => {
            let transaction = Transaction {
                flag,
                payee: words.payee,
                narration: words.narration,
                marks: WithGiven::new(),
                postings: Stretch::new(),
            };
            Some((day, transaction))
        }
    }
}
