//! Transactions.
ghost use Rattle.std.specs.Prelude.{◌≡◌, MatchOption, IfOk};
ghost use Rattle.theory.specs.Form.{Reads, HasNone};
ghost use Rattle.bean_grammar.specs.Lexeme.{lexemes};
ghost use Rattle.bean_directives.specs.Head as rule;

use crate::directive::DirectiveKind;
use crate::payee::Payee;
use crate::stretch::Stretch;
use bean_base::{Flag, Text};
use bean_grammar::literal::text_if_due;
use bean_grammar::mark::marks;
use bean_grammar::{Mark, Ranged};
use bean_lexer::Token;
use bean_postings::WrittenPosting;
use given_items::WithGiven;
use std::alloc::{AllocError, Global};

/// A change of accounts.
#[derive(Drop)]
pub struct Transaction<'a> {
    pub flag: Flag,
    pub payee: Payee<'a>,
    /// The text of no characters where none is written.
    pub narration: Text<'a>,
    /// Its tags and links in the order in which they are written, then the tags that are pushed to
    /// it. A mark may stand twice.
    pub marks: WithGiven<Mark<'a>>,
    /// In a block with those of other transactions, where nothing but postings stands under it.
    pub postings: Stretch<WrittenPosting<'a>>,
}

/// The payee and the narration of a transaction.
#[derive(Drop)]
pub struct PayeeAndNarration<'a> {
    pub payee: Payee<'a>,
    pub narration: Text<'a>,
}

/// Of two texts the first is the payee, and the last text is the narration.
fn words_of<'a>(first: Option<Text<'a>>, second: Option<Text<'a>>) -> PayeeAndNarration<'a>
    ensures { result ≡ rule.words_of first.entry second.entry }
{
    match (first, second) {
        (Some(payee), Some(narration)) => PayeeAndNarration {
            payee: Payee::new(payee),
            narration,
        },
        (Some(narration), None) => PayeeAndNarration {
            payee: Payee::none(),
            narration,
        },
        (None, _) => PayeeAndNarration {
            payee: Payee::none(),
            narration: Text::new(""),
        },
    }
}

/// Up to two texts at the front, and what stands behind them.
#[inline(always)]
pub(crate) fn words<'t, 'a>(tokens: &'t [Token<'a>]) -> (PayeeAndNarration<'a>, &'t [Token<'a>])
    ensures { Reads rule.words (lexemes tokens.now) result.0 (lexemes result.1.now) }
{
    let (first, rest) = text_if_due(tokens);
    let (second, rest) = text_if_due(rest);
    (words_of(first, second), rest)
}

/// What stands behind the flag of a transaction, and what stands behind that.
pub fn transaction_line<'t, 'a>(
    alloc: Global,
    flag: Flag,
    tokens: &'t [Token<'a>],
) -> Result<(Ranged<DirectiveKind<'a>>, &'t [Token<'a>]), AllocError>
    ensures { IfOk result (λ r. Reads (rule.transaction_line flag) (lexemes tokens.now)
        r.0 (lexemes r.1.now)) }
{
    let (words, rest) = words(tokens);
    let (written, rest) = marks(alloc, rest)?;
    let marks = WithGiven::of(alloc, written)?;
    let transaction = Transaction {
        flag,
        payee: words.payee,
        narration: words.narration,
        marks,
        postings: Stretch::new(),
    };
    Ok((
        Ranged::Within(DirectiveKind::Transaction(transaction)),
        rest,
    ))
}
