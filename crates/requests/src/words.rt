//! What the words ask for.
ghost use Rattle.std.specs.Prelude.{◌≡◌, [], ◌∷◌, None, IfOk, IfSome, OnErr, map};
ghost use Rattle.std.specs.Option.{option_and_then};
ghost use Rattle.clap.specs.Values.{kind_of};
ghost use Rattle.clap.specs.Walk.{all_of, first_of, rows_of};
ghost use Rattle.clap.specs.Words.{FailsBy, app_of, fault_of, found_of, subcommand_of};
ghost use Rattle.clap.specs.Words.{subcommand_rows_of, with_rule, with_subcommand};
ghost use Rattle.clap.specs.declared.error.kind.ErrorKind.TheVariants as kind;
ghost use Rattle.query_rows.specs.ColumnShape.{AreBounds};
ghost use Rattle.requests.specs.Batch as batch;
ghost use Rattle.requests.specs.Command.{IsCommand, IsLocal};
ghost use Rattle.requests.specs.Command as words_of;
ghost use Rattle.requests.specs.Commands as spec;
ghost use Rattle.requests.specs.Commands.{program};
ghost use Rattle.requests.specs.Compile as compile;
ghost use Rattle.requests.specs.declared.words.Name.TheVariants as names;

use bean_base::{List, Slice};
use clap::error::ErrorKind;
use clap::{Arg, ArgMatches, Error};
use limits::{Bounds, MOST_POSTINGS, MOST_UNITS_DIGITS, MOST_VALUE_DIGITS, Version};
use std::alloc::{AllocError, Global};

/// A command.
#[derive(Clone, Copy, Drop, PartialEq, Eq)]
pub enum Name {
    List,
    Check,
    Show,
    Verify,
    Upgrade,
    Run,
    Query,
    Compile,
    Batch,
}

/// What the words ask for: a command, with its words.
#[derive(Drop)]
pub enum Request<'w> {
    /// The table of a ledger's postings, by the ledger's name.
    List(Slice<'w>),
    /// The lines of a ledger's faults, by the ledger's name.
    Check(Slice<'w>),
    /// The listing of a query file, by the file's name.
    Show(Slice<'w>),
    /// Whether a query file is accepted, by the file's name.
    Verify(Slice<'w>),
    /// The file of a program in the second version, by the names of the old file and the new one.
    Upgrade(Slice<'w>, Slice<'w>),
    /// What a query file answers over a ledger, by the names of both.
    Run(Slice<'w>, Slice<'w>),
    /// What a query answers over a ledger, by the ledger's name and the query's text.
    Query(Slice<'w>, Slice<'w>),
    /// The file of a query's program, by the query's text, the file's name and the bounds.
    Compile(Slice<'w>, Slice<'w>, Bounds),
    /// What query files answer over a ledger, in turns of so many steps each, by the names of the
    /// ledger and of the files.
    Batch(u64, Slice<'w>, List<Slice<'w>>),
}

/// All commands.
const COMMANDS: [Name; 9] = [
    Name::List,
    Name::Check,
    Name::Show,
    Name::Verify,
    Name::Upgrade,
    Name::Run,
    Name::Query,
    Name::Compile,
    Name::Batch,
];

/// The most steps of a turn.
const MOST_STEPS: u64 = u64::MAX;

impl Name {
    fn text(self) -> &'static str
        ensures { result.now ≡ spec.text_of self }
    {
        match self {
            Name::List => "list",
            Name::Check => "check",
            Name::Show => "show",
            Name::Verify => "verify",
            Name::Upgrade => "upgrade",
            Name::Run => "run",
            Name::Query => "query",
            Name::Compile => "compile",
            Name::Batch => "batch",
        }
    }

    /// The command of that name.
    fn named(text: &str) -> Option<Name>
        ensures { result ≡ spec.named text.now }
    {
        COMMANDS.iter().copied().find(|name| text == name.text())
    }

    /// What its words ask for.
    fn request<'w>(
        self,
        alloc: Global,
        words: &ArgMatches<'w>,
    ) -> Result<Option<Request<'w>>, AllocError>
        ensures { IfOk result (λ asked. asked ≡ spec.request_by self (rows_of (found_of words.now))) }
    {
        match self {
            Name::List => Ok(word(words, "LEDGER").map(Request::List)),
            Name::Check => Ok(word(words, "LEDGER").map(Request::Check)),
            Name::Show => Ok(word(words, "FILE").map(Request::Show)),
            Name::Verify => Ok(word(words, "FILE").map(Request::Verify)),
            Name::Upgrade => match (word(words, "OLD"), word(words, "NEW")) {
                (Some(old), Some(new)) => Ok(Some(Request::Upgrade(old, new))),
                _ => Ok(None),
            },
            Name::Run => match (word(words, "FILE"), word(words, "LEDGER")) {
                (Some(file), Some(ledger)) => Ok(Some(Request::Run(file, ledger))),
                _ => Ok(None),
            },
            Name::Query => match (word(words, "LEDGER"), word(words, "TEXT")) {
                (Some(ledger), Some(text)) => Ok(Some(Request::Query(ledger, text))),
                _ => Ok(None),
            },
            Name::Compile => Ok(compiling(words)),
            Name::Batch => batching(alloc, words),
        }
    }
}

/// The word of that name.
fn word<'w>(words: &ArgMatches<'w>, name: &str) -> Option<Slice<'w>>
    ensures { result ≡ first_of name.now (rows_of (found_of words.now)) }
{
    match words.get_str(name) {
        Some(word) => Some(Slice::new(word)),
        None => None,
    }
}

/// The slices of texts.
fn slices<'w>(alloc: Global, texts: &[&'w str]) -> Result<List<Slice<'w>>, AllocError>
    ensures { IfOk result (λ list. list ≡ map (λ t. t.now) texts.now) }
{
    let mut list = List::new(Vec::new(alloc));
    for text in texts {
        list.push(Slice::new(*text))?;
    }
    Ok(list)
}

/// All words of that name.
fn all_words<'w>(
    alloc: Global,
    words: &ArgMatches<'w>,
    name: &str,
) -> Result<Option<List<Slice<'w>>>, AllocError>
    ensures { IfOk result (λ found. found ≡ all_of name.now (rows_of (found_of words.now))) }
{
    let texts = match words.get_strs(name) {
        Some(texts) => texts,
        None => return Ok(None),
    };
    let list = slices(alloc, texts)?;
    Ok(Some(list))
}

/// A number from 1 to the most.
fn number_in(text: &str, most: u64) -> Option<u64>
    ensures { result ≡ compile.number_in most text.now }
{
    let number = match text.parse::<u64>() {
        Ok(number) => number,
        Err(_) => return None,
    };
    if number < 1 {
        return None;
    }
    if number > most {
        return None;
    }
    Some(number)
}

/// The number of an option, from 1 to the most; where it isn't given, the most.
fn bound(words: &ArgMatches<'_>, name: &str, most: u64) -> Option<u64>
    ensures { result ≡ compile.bound_in name.now most (rows_of (found_of words.now)) }
{
    match words.get_str(name) {
        Some(text) => number_in(text, most),
        None => Some(most),
    }
}

/// The bounds that the words of `compile` give.
fn bounds(words: &ArgMatches<'_>) -> Option<Bounds>
    ensures bounds { result ≡ compile.bounds_in (rows_of (found_of words.now)) }
    ensures within { IfSome result AreBounds }
{
    Some(Bounds {
        schema: Version::Second,
        postings: bound(words, "postings", MOST_POSTINGS as u64)? as u32,
        units_digits: bound(words, "digits", MOST_UNITS_DIGITS as u64)? as u8,
        value_digits: bound(words, "value-digits", MOST_VALUE_DIGITS as u64)? as u8,
    })
}

/// What the words of `compile` ask for.
fn compiling<'w>(words: &ArgMatches<'w>) -> Option<Request<'w>>
    ensures { result ≡ spec.request_by names.Compile (rows_of (found_of words.now)) }
{
    match (word(words, "TEXT"), word(words, "FILE"), bounds(words)) {
        (Some(text), Some(file), Some(bounds)) => Some(Request::Compile(text, file, bounds)),
        _ => None,
    }
}

/// How many steps a turn of `batch` has.
fn steps(words: &ArgMatches<'_>) -> Option<u64>
    ensures { result ≡ batch.steps_in (rows_of (found_of words.now)) }
{
    match words.get_str("K") {
        Some(text) => number_in(text, MOST_STEPS),
        None => None,
    }
}

/// What the words of `batch` ask for.
fn batching<'w>(alloc: Global, words: &ArgMatches<'w>) -> Result<Option<Request<'w>>, AllocError>
    ensures { IfOk result (λ asked. asked
        ≡ spec.request_by names.Batch (rows_of (found_of words.now))) }
{
    let files = all_words(alloc, words, "FILE")?;
    match (steps(words), word(words, "LEDGER"), files) {
        (Some(steps), Some(ledger), Some(files)) => {
            Ok(Some(Request::Batch(steps, ledger, files)))
        }
        _ => Ok(None),
    }
}

/// A subcommand, of which one word has to follow.
fn with_word<'a>(
    alloc: Global,
    name: &'a str,
    word: &'a str,
) -> Result<clap::Command<'a>, AllocError>
    ensures { IfOk result (λ c. IsCommand c (words_of.named name.entry.now (word.entry.now ∷ []))) }
{
    let word = Arg::new(alloc, word).required(true);
    clap::Command::new(alloc, name)
        .disable_help_flag(true)
        .arg(word)
}

/// The same with a second word.
fn with_words<'a>(
    alloc: Global,
    name: &'a str,
    first: &'a str,
    second: &'a str,
) -> Result<clap::Command<'a>, AllocError>
    ensures { IfOk result (λ c. IsCommand c
        (words_of.named name.entry.now (first.entry.now ∷ second.entry.now ∷ []))) }
{
    let command = with_word(alloc, name, first)?;
    command.arg(Arg::new(alloc, second).required(true))
}

/// A subcommand with an option more, which takes a value and may be left out.
fn with_option<'a>(
    alloc: Global,
    subcommand: clap::Command<'a>,
    name: &'a str,
) -> Result<clap::Command<'a>, AllocError>
    requires { IsLocal subcommand }
    ensures { IfOk result (λ c. IsCommand c
        (with_rule (app_of subcommand.entry) (compile.option name.entry.now))) }
{
    subcommand.arg(Arg::new(alloc, name).long(name))
}

/// The words of `compile`.
fn with_bounds<'a>(alloc: Global) -> Result<clap::Command<'a>, AllocError>
    ensures { IfOk result (λ c. IsCommand c (spec.app_of names.Compile)) }
{
    let plain = with_words(alloc, "compile", "TEXT", "FILE")?;
    let counted = with_option(alloc, plain, "postings")?;
    let measured = with_option(alloc, counted, "digits")?;
    with_option(alloc, measured, "value-digits")
}

/// The words of `batch`.
fn with_files<'a>(alloc: Global) -> Result<clap::Command<'a>, AllocError>
    ensures { IfOk result (λ c. IsCommand c (spec.app_of names.Batch)) }
{
    let plain = with_words(alloc, "batch", "K", "LEDGER")?;
    plain.arg(Arg::new(alloc, "FILE").required(true).num_args(1..))
}

/// The words of a command, as clap takes them. There is no help by words: the README has it.
fn subcommand<'a>(alloc: Global, name: Name) -> Result<clap::Command<'a>, AllocError>
    ensures { IfOk result (λ c. IsCommand c (spec.app_of name)) }
{
    match name {
        Name::List => with_word(alloc, "list", "LEDGER"),
        Name::Check => with_word(alloc, "check", "LEDGER"),
        Name::Show => with_word(alloc, "show", "FILE"),
        Name::Verify => with_word(alloc, "verify", "FILE"),
        Name::Upgrade => with_words(alloc, "upgrade", "OLD", "NEW"),
        Name::Run => with_words(alloc, "run", "FILE", "LEDGER"),
        Name::Query => with_words(alloc, "query", "LEDGER", "TEXT"),
        Name::Compile => with_bounds(alloc),
        Name::Batch => with_files(alloc),
    }
}

/// The program's words with those of one command more.
fn with_command<'a>(
    alloc: Global,
    words: clap::Command<'a>,
    name: Name,
) -> Result<clap::Command<'a>, AllocError>
    ensures { IfOk result (λ c. app_of c
        ≡ with_subcommand (app_of words.entry) (spec.app_of name).top) }
{
    words.subcommand(subcommand(alloc, name)?)
}

/// The same with those of several.
fn with_commands<'a>(
    alloc: Global,
    words: clap::Command<'a>,
    names: &[Name],
) -> Result<clap::Command<'a>, AllocError>
    ensures { IfOk result (λ c. app_of c
        ≡ spec.with_commands (app_of words.entry) names.now) }
{
    let mut words = words;
    for name in names {
        words = with_command(alloc, words, *name)?;
    }
    Ok(words)
}

/// The program's words without those of its commands.
fn top<'a>(alloc: Global) -> clap::Command<'a>
    ensures { app_of result ≡ spec.top }
{
    clap::Command::new(alloc, "bq")
        .no_binary_name(true)
        .disable_help_flag(true)
        .disable_help_subcommand(true)
        .subcommand_required(true)
}

/// The words as those of a command.
fn matches_of<'a>(alloc: Global, words: &'a [&'a str]) -> Result<ArgMatches<'a>, Error>
    ensures rows { IfOk result (λ m. subcommand_rows_of m
        ≡ subcommand_of program (map (λ w. w.now) words.entry.now)) }
    ensures faults { FailsBy (fault_of program (map (λ w. w.now) words.entry.now)) result }
{
    let command = with_commands(alloc, top(alloc), &COMMANDS)?;
    command.try_get_matches_from(words)
}

/// What the words of a command ask for, by its name.
fn asked_by<'w>(
    alloc: Global,
    name: &str,
    words: &ArgMatches<'w>,
) -> Result<Option<Request<'w>>, AllocError>
    ensures { IfOk result (λ asked. asked
        ≡ spec.asked_by (name.now, rows_of (found_of words.now))) }
{
    match Name::named(name) {
        Some(name) => name.request(alloc, words),
        None => Ok(None),
    }
}

/// What the command asks for that the words name.
fn asked_in<'w>(alloc: Global, matches: &ArgMatches<'w>) -> Result<Option<Request<'w>>, AllocError>
    ensures { IfOk result (λ asked. asked
        ≡ option_and_then spec.asked_by (subcommand_rows_of matches.now)) }
{
    match matches.subcommand() {
        Some((name, words)) => asked_by(alloc, name, words),
        None => Ok(None),
    }
}

/// Nothing is asked by words in which clap found a fault; want of memory to read them is none.
fn unasked<'w>(error: &Error) -> Result<Option<Request<'w>>, AllocError>
    ensures none { IfOk result (λ asked.
        (asked ≡ None) × ¬ (kind_of error.now ≡ kind.OutOfMemory)) }
    ensures lacks { OnErr result (kind_of error.now ≡ kind.OutOfMemory) }
{
    match error.kind() {
        ErrorKind::OutOfMemory => Err(AllocError),
        _ => Ok(None),
    }
}

/// What the words ask for, without the program's own name; nothing where they are refused.
pub fn request_in<'w>(
    alloc: Global,
    words: &'w [&'w str],
) -> Result<Option<Request<'w>>, AllocError>
    ensures { IfOk result (λ asked. asked
        ≡ spec.request_in (map (λ w. w.now) words.entry.now)) }
{
    match matches_of(alloc, words) {
        Ok(matches) => asked_in(alloc, &matches),
        Err(error) => unasked(&error),
    }
}
