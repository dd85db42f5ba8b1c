//! Blocks without a day: settings, pushes and pops.
ghost use Rattle.std.specs.Prelude.{◌≡◌, MatchOption};
ghost use Rattle.theory.specs.Form.{Reads, HasNone};
ghost use Rattle.bean_grammar.specs.Lexeme as lexeme;
ghost use Rattle.bean_grammar.specs.Lexeme.{lexemes};
ghost use Rattle.bean_directives.specs.Undated as rule;

use bean_base::Text;
use bean_grammar::entry::entry;
use bean_grammar::front::{after_key, after_tag, next};
use bean_grammar::literal::{text, text_if_due};
use bean_grammar::{MetaEntry, MetaKey, Ranged, Tag};
use bean_lexer::{Keyword, Kind, Token};

/// What a ledger says of itself, and which other texts belong to it.
#[derive(Drop)]
pub enum SettingKind<'a> {
    Title(Text<'a>),
    OperatingCurrency(Text<'a>),
    /// The name of a booking method, known or not.
    BookingMethod(Text<'a>),
    /// The name of another text, which stands at this place.
    Include(Text<'a>),
}

/// A setting, with its place.
#[derive(Drop)]
pub struct Setting<'a> {
    /// The line on which it is written, from 1.
    pub line: usize,
    pub kind: SettingKind<'a>,
}

/// What a push gives to the transactions up to its pop.
#[derive(Drop)]
pub enum Pushed<'a> {
    Tag(Tag<'a>),
    Entry(MetaEntry<'a>),
}

/// What a pop takes back: a tag, or the entry of a key.
#[derive(Drop)]
pub enum PushName<'a> {
    Tag(Tag<'a>),
    Key(MetaKey<'a>),
}

/// Where a scope begins or ends.
#[derive(Drop)]
pub enum Bound<'a> {
    Push(Pushed<'a>),
    Pop(PushName<'a>),
}

/// What a block without a day does.
#[derive(Drop)]
pub enum UndatedKind<'a> {
    Setting(SettingKind<'a>),
    /// A plugin, or an option that the books don't have.
    Ignored,
    Bound(Bound<'a>),
}

/// A block of a ledger's text that begins with no day.
#[derive(Drop)]
pub struct Undated<'a> {
    /// The line on which it is written, from 1.
    pub line: usize,
    pub kind: UndatedKind<'a>,
}

/// What an option says: the books have three.
fn option_of<'a>(name: Text<'a>, value: Text<'a>) -> Ranged<UndatedKind<'a>>
    ensures { result ≡ rule.option_of name.entry value.entry }
{
    if name == Text::new("title") {
        return Ranged::Within(UndatedKind::Setting(SettingKind::Title(value)));
    }
    if name == Text::new("operating_currency") {
        return Ranged::Within(UndatedKind::Setting(SettingKind::OperatingCurrency(value)));
    }
    if name == Text::new("booking_method") {
        return Ranged::Within(UndatedKind::Setting(SettingKind::BookingMethod(value)));
    }
    Ranged::Within(UndatedKind::Ignored)
}

/// What stands behind `option`, and what stands behind that.
fn option<'t, 'a>(tokens: &'t [Token<'a>]) -> Option<(Ranged<UndatedKind<'a>>, &'t [Token<'a>])>
    ensures { MatchOption result (HasNone rule.option (lexemes tokens.now))
        (λ r. Reads rule.option (lexemes tokens.now) r.0 (lexemes r.1.now)) }
{
    let (name, rest) = text(tokens)?;
    let (value, rest) = text(rest)?;
    Some((option_of(name, value), rest))
}

/// What stands behind `include`, and what stands behind that.
fn include<'t, 'a>(tokens: &'t [Token<'a>]) -> Option<(Ranged<UndatedKind<'a>>, &'t [Token<'a>])>
    ensures { MatchOption result (HasNone rule.include (lexemes tokens.now))
        (λ r. Reads rule.include (lexemes tokens.now) r.0 (lexemes r.1.now)) }
{
    let (name, rest) = text(tokens)?;
    let include = UndatedKind::Setting(SettingKind::Include(name));
    Some((Ranged::Within(include), rest))
}

/// What stands behind `plugin`, and what stands behind that.
fn plugin<'t, 'a>(tokens: &'t [Token<'a>]) -> Option<(Ranged<UndatedKind<'a>>, &'t [Token<'a>])>
    ensures { MatchOption result (HasNone rule.plugin (lexemes tokens.now))
        (λ r. Reads rule.plugin (lexemes tokens.now) r.0 (lexemes r.1.now)) }
{
    let (_, rest) = text(tokens)?;
    let (_, rest) = text_if_due(rest);
    Some((Ranged::Within(UndatedKind::Ignored), rest))
}

/// What stands behind `pushtag`, and what stands behind that.
fn push_tag<'t, 'a>(tokens: &'t [Token<'a>]) -> Option<(Ranged<UndatedKind<'a>>, &'t [Token<'a>])>
    ensures { MatchOption result (HasNone rule.push_tag (lexemes tokens.now))
        (λ r. Reads rule.push_tag (lexemes tokens.now) r.0 (lexemes r.1.now)) }
{
    let (tag, rest) = after_tag(tokens)?;
    let push = UndatedKind::Bound(Bound::Push(Pushed::Tag(tag)));
    Some((Ranged::Within(push), rest))
}

/// What stands behind `poptag`, and what stands behind that.
fn pop_tag<'t, 'a>(tokens: &'t [Token<'a>]) -> Option<(Ranged<UndatedKind<'a>>, &'t [Token<'a>])>
    ensures { MatchOption result (HasNone rule.pop_tag (lexemes tokens.now))
        (λ r. Reads rule.pop_tag (lexemes tokens.now) r.0 (lexemes r.1.now)) }
{
    let (tag, rest) = after_tag(tokens)?;
    let pop = UndatedKind::Bound(Bound::Pop(PushName::Tag(tag)));
    Some((Ranged::Within(pop), rest))
}

fn push_entry_of<'a>(entry: Ranged<MetaEntry<'a>>) -> Ranged<UndatedKind<'a>>
    ensures { result ≡ rule.push_entry_of entry.entry }
{
    match entry {
        Ranged::Within(entry) => {
            Ranged::Within(UndatedKind::Bound(Bound::Push(Pushed::Entry(entry))))
        }
        Ranged::Outside => Ranged::Outside,
    }
}

/// What stands behind `pushmeta`, and what stands behind that.
fn push_entry<'t, 'a>(tokens: &'t [Token<'a>]) -> Option<(Ranged<UndatedKind<'a>>, &'t [Token<'a>])>
    ensures { MatchOption result (HasNone rule.push_entry (lexemes tokens.now))
        (λ r. Reads rule.push_entry (lexemes tokens.now) r.0 (lexemes r.1.now)) }
{
    let (entry, rest) = entry(tokens)?;
    Some((push_entry_of(entry), rest))
}

/// What stands behind `popmeta`, and what stands behind that.
fn pop_key<'t, 'a>(tokens: &'t [Token<'a>]) -> Option<(Ranged<UndatedKind<'a>>, &'t [Token<'a>])>
    ensures { MatchOption result (HasNone rule.pop_key (lexemes tokens.now))
        (λ r. Reads rule.pop_key (lexemes tokens.now) r.0 (lexemes r.1.now)) }
{
    let (key, rest) = after_key(tokens)?;
    let pop = UndatedKind::Bound(Bound::Pop(PushName::Key(key)));
    Some((Ranged::Within(pop), rest))
}

/// What stands behind a word that tells the kind, and what stands behind that.
fn undated_behind<'t, 'a>(
    word: Keyword,
    tokens: &'t [Token<'a>],
) -> Option<(Ranged<UndatedKind<'a>>, &'t [Token<'a>])>
    ensures { MatchOption result
        (HasNone (rule.undated_behind (lexeme.Keyword word)) (lexemes tokens.now))
        (λ r. Reads (rule.undated_behind (lexeme.Keyword word)) (lexemes tokens.now)
        r.0 (lexemes r.1.now)) }
{
    match word {
        Keyword::Option => option(tokens),
        Keyword::Include => include(tokens),
        Keyword::Plugin => plugin(tokens),
        Keyword::PushTag => push_tag(tokens),
        Keyword::PopTag => pop_tag(tokens),
        Keyword::PushMeta => push_entry(tokens),
        Keyword::PopMeta => pop_key(tokens),
        _ => None,
    }
}

/// The kind of a block without a day that is this line.
pub fn undated_line<'a>(line: &[Token<'a>]) -> Option<Ranged<UndatedKind<'a>>>
    ensures { MatchOption result (rule.IsNotUndated (lexemes line.now))
        (rule.IsUndated (lexemes line.now)) }
{
    let (first, rest) = next(line)?;
    let Kind::Keyword(word) = first.kind else {
        return None;
    };
    let (kind, rest) = undated_behind(word, rest)?;
    match next(rest) {
        Some(_) => None,
        None => Some(kind),
    }
}
