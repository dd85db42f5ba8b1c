//! The next token, if it is of the kind that is expected.
ghost use Rattle.std.specs.Prelude.{◌≡◌, ◌-◌, ◌<◌, ◌∷◌, List, MatchOption, IfSome, IsTrue, false, length, drop};
ghost use Rattle.bean_lexer.specs.Gap.{spot_at};
ghost use Rattle.bean_lexer.specs.InGap.{IsLead};
ghost use Rattle.bean_lexer.specs.NoKeys.{NoKeys};
ghost use Rattle.bean_lexer.specs.ToCome.{ToCome, EndsLines, is_column_one};
ghost use Rattle.bean_lexer.specs.declared.kind.Kind.TheVariants as kinds;
ghost use Rattle.bean_lexer.specs.declared.kind.Place.TheVariants as places;
ghost use Rattle.bean_lexer.specs.declared.kind.Sign.TheVariants as signs;
ghost use Rattle.bean_lexer.specs.declared.token.Token.{Token};
ghost use Rattle.expected_tokens.specs.Found.{IsCounted};

use crate::expected::{
    expected_account, expected_currency, expected_day, expected_minus, expected_number,
};
use crate::spaces::{indent_at, spaces_at};
use bean_base::Slice;
use bean_lexer::token_at::token_at;
use bean_lexer::{Counted, Lead, Lexer, Place, Spot, Token, gap_at};

/// What stands behind a gap that begins at a place of a text.
#[inline(always)]
fn behind<'a>(place: usize, rest: &'a str, gap: Lead) -> &'a str
    requires { IsLead (spot_at place) rest.now gap }
    ensures { result.now ≡ drop gap.len rest.now }
{
    let _ = place;
    let (_, behind) = rest.split_at(gap.len);
    behind
}

/// The place of the text at which the rest begins.
#[inline(always)]
fn place(lexer: &Lexer<'_>) -> usize
    ensures { result ≡ length lexer.now.text.now - length lexer.now.rest.now }
{
    lexer.text.len() - lexer.rest.len()
}

/// Takes the token that was found behind a gap.
#[inline(always)]
fn take<'a>(
    lexer: &mut Lexer<'a>,
    gap: Lead,
    behind: &'a str,
    found: Counted,
    keyless: usize,
) -> Token<'a>
    requires gap { IsLead (spot_at (length lexer.now.text.now - length lexer.now.rest.now))
        lexer.now.rest.now gap }
    requires behind { behind.now ≡ drop gap.len lexer.now.rest.now }
    requires some { 0 < length behind.now }
    requires found { IsCounted behind.now found }
    requires no_keys { NoKeys behind.now keyless }
    ensures tokens { (ts : List Token) → ToCome lexer.new ts → ToCome lexer.old (result ∷ ts) }
    ensures kind { result.kind ≡ found.kind }
    ensures place { result.place ≡ gap.place }
    ensures shorter { length lexer.new.rest.now < length lexer.old.rest.now }
{
    let (text, rest) = behind.split_at(found.len);
    let token = Token {
        kind: found.kind,
        place: gap.place,
        text: Slice::new(text),
        start: lexer.text.len() - behind.len(),
        line: lexer.line + gap.line_feeds,
    };
    *lexer = Lexer {
        text: lexer.text,
        rest,
        line: token.line + found.line_feeds,
        keyless,
    };
    token
}

/// The gap before the next token.
#[inline(always)]
fn gap(lexer: &Lexer<'_>) -> Lead
    ensures { IsLead (spot_at (length lexer.now.text.now - length lexer.now.rest.now))
        lexer.now.rest.now result }
{
    gap_at(Spot::at(place(lexer)), lexer.rest.as_bytes())
}

/// The next token, or none where there are no more or the next one stands in the first column.
#[inline(always)]
pub fn next_past_column_one<'a>(lexer: &mut Lexer<'a>) -> Option<Token<'a>>
    ensures tokens { MatchOption result (EndsLines lexer.old × (lexer.new ≡ lexer.old))
        (λ t. (ts : List Token) → ToCome lexer.new ts → ToCome lexer.old (t ∷ ts)) }
    ensures place { IfSome result (λ t. is_column_one t.place ≡ false) }
    ensures shorter { IfSome result (λ _. length lexer.new.rest.now < length lexer.old.rest.now) }
{
    let gap = gap(lexer);
    if gap.place == Place::ColumnOne {
        return None;
    }
    let behind = behind(place(lexer), lexer.rest, gap);
    if behind.is_empty() {
        return None;
    }
    let mut keyless = lexer.keyless;
    let found = token_at(behind.as_bytes(), &mut keyless);
    Some(take(lexer, gap, behind, found, keyless))
}

/// Whether the next token stands in the first column, or there are no more.
#[inline(always)]
pub fn is_before_column_one(lexer: &Lexer<'_>) -> bool
    ensures { IsTrue result → EndsLines lexer.now }
{
    let gap = gap(lexer);
    gap.place == Place::ColumnOne || gap.len == lexer.rest.len()
}

/// The next token, if it is of the form of a day.
#[inline(always)]
pub fn next_day<'a>(lexer: &mut Lexer<'a>) -> Option<Token<'a>>
    ensures tokens { MatchOption result (lexer.new ≡ lexer.old)
        (λ t. (ts : List Token) → ToCome lexer.new ts → ToCome lexer.old (t ∷ ts)) }
    ensures kind { IfSome result (λ t. t.kind ≡ kinds.Day) }
    ensures shorter { IfSome result (λ _. length lexer.new.rest.now < length lexer.old.rest.now) }
{
    let gap = gap(lexer);
    let behind = behind(place(lexer), lexer.rest, gap);
    let found = expected_day(behind.as_bytes())?;
    Some(take(lexer, gap, behind, found, lexer.keyless))
}

/// The gap up to a token of the same line, if spaces alone stand before it.
#[inline(always)]
fn spaces(lexer: &Lexer<'_>) -> Option<Lead>
    ensures gap { IfSome result (IsLead
        (spot_at (length lexer.now.text.now - length lexer.now.rest.now)) lexer.now.rest.now) }
    ensures place { IfSome result (λ gap. gap.place ≡ places.Inside) }
    ensures some { IfSome result (λ gap. gap.len < length lexer.now.rest.now) }
{
    match place(lexer) {
        0 => None,
        _ => spaces_at(lexer.rest.as_bytes()),
    }
}

/// The next token, if it stands in the same line behind spaces alone.
#[inline(always)]
pub fn next_inside<'a>(lexer: &mut Lexer<'a>) -> Option<Token<'a>>
    ensures tokens { MatchOption result (lexer.new ≡ lexer.old)
        (λ t. (ts : List Token) → ToCome lexer.new ts → ToCome lexer.old (t ∷ ts)) }
    ensures place { IfSome result (λ t. t.place ≡ places.Inside) }
    ensures shorter { IfSome result (λ _. length lexer.new.rest.now < length lexer.old.rest.now) }
{
    let gap = spaces(lexer)?;
    let behind = behind(place(lexer), lexer.rest, gap);
    let mut keyless = lexer.keyless;
    let found = token_at(behind.as_bytes(), &mut keyless);
    Some(take(lexer, gap, behind, found, keyless))
}

/// The next token, if it is an account that begins the next line behind spaces alone.
#[inline(always)]
pub fn next_account<'a>(lexer: &mut Lexer<'a>) -> Option<Token<'a>>
    ensures tokens { MatchOption result (lexer.new ≡ lexer.old)
        (λ t. (ts : List Token) → ToCome lexer.new ts → ToCome lexer.old (t ∷ ts)) }
    ensures kind { IfSome result (λ t. t.kind ≡ kinds.Account) }
    ensures place { IfSome result (λ t. t.place ≡ places.Indented) }
    ensures shorter { IfSome result (λ _. length lexer.new.rest.now < length lexer.old.rest.now) }
{
    if place(lexer) == 0 {
        return None;
    }
    let gap = indent_at(lexer.rest.as_bytes())?;
    let behind = behind(place(lexer), lexer.rest, gap);
    let found = expected_account(behind.as_bytes())?;
    Some(take(lexer, gap, behind, found, lexer.keyless))
}

/// The next token, if it is a minus in the same line behind spaces alone.
#[inline(always)]
pub fn next_minus<'a>(lexer: &mut Lexer<'a>) -> Option<Token<'a>>
    ensures tokens { MatchOption result (lexer.new ≡ lexer.old)
        (λ t. (ts : List Token) → ToCome lexer.new ts → ToCome lexer.old (t ∷ ts)) }
    ensures kind { IfSome result (λ t. t.kind ≡ kinds.Sign signs.Minus) }
    ensures place { IfSome result (λ t. t.place ≡ places.Inside) }
    ensures shorter { IfSome result (λ _. length lexer.new.rest.now < length lexer.old.rest.now) }
{
    let gap = spaces(lexer)?;
    let behind = behind(place(lexer), lexer.rest, gap);
    let found = expected_minus(behind.as_bytes())?;
    Some(take(lexer, gap, behind, found, lexer.keyless))
}

/// The next token, if it is a number in the same line behind spaces alone.
#[inline(always)]
pub fn next_number<'a>(lexer: &mut Lexer<'a>) -> Option<Token<'a>>
    ensures tokens { MatchOption result (lexer.new ≡ lexer.old)
        (λ t. (ts : List Token) → ToCome lexer.new ts → ToCome lexer.old (t ∷ ts)) }
    ensures kind { IfSome result (λ t. t.kind ≡ kinds.Number) }
    ensures place { IfSome result (λ t. t.place ≡ places.Inside) }
    ensures shorter { IfSome result (λ _. length lexer.new.rest.now < length lexer.old.rest.now) }
{
    let gap = spaces(lexer)?;
    let behind = behind(place(lexer), lexer.rest, gap);
    let found = expected_number(behind.as_bytes())?;
    Some(take(lexer, gap, behind, found, lexer.keyless))
}

/// The next token, if it is a currency in the same line behind spaces alone.
#[inline(always)]
pub fn next_currency<'a>(lexer: &mut Lexer<'a>) -> Option<Token<'a>>
    ensures tokens { MatchOption result (lexer.new ≡ lexer.old)
        (λ t. (ts : List Token) → ToCome lexer.new ts → ToCome lexer.old (t ∷ ts)) }
    ensures kind { IfSome result (λ t. t.kind ≡ kinds.Currency) }
    ensures place { IfSome result (λ t. t.place ≡ places.Inside) }
    ensures shorter { IfSome result (λ _. length lexer.new.rest.now < length lexer.old.rest.now) }
{
    let gap = spaces(lexer)?;
    let behind = behind(place(lexer), lexer.rest, gap);
    let found = expected_currency(behind.as_bytes())?;
    Some(take(lexer, gap, behind, found, lexer.keyless))
}
