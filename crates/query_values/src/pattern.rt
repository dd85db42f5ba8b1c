//! Patterns: regular expressions that match without regard to case.
ghost use Rattle.std.specs.Prelude.{◌≡◌, IfOk};
ghost use Rattle.query_values.specs.Pattern.{is_found};

use crate::cause::PatternCause;
use refusals::Refusal;
use regex::{Matcher, Regex, RegexBuilder};
use std::alloc::{AllocError, Global};
use std::marker::Model;

/// A regular expression, built to be searched for without regard to case. Its value is the text
/// that writes it.
#[derive(Drop)]
pub struct Pattern {
    /// In memory of its own, so that crates which hold a pattern need to know nothing of what is in it.
    regex: Box<Regex>,
}

impl Model for Pattern {
    ghost use Rattle.std.specs.Prelude.{◌≡◌, ℕ, List};
    ghost use Rattle.regex.specs.Strings.{regex_config, regex_source, IsReadFromSource};
    ghost use Rattle.query_values.specs.Pattern.{any_case};

    ghost Value = { List ℕ };

    ghost view = { λ p. regex_source p.regex.value };

    ghost invariant = { λ p. (regex_config p.regex.value ≡ any_case)
        × IsReadFromSource p.regex.value };
}

/// What searches for a pattern: it keeps the memory that a search needs. Its value is the text that
/// writes the pattern.
pub struct Finder<'p> {
    regex: &'p Box<Regex>,
    /// As with a pattern, apart from it.
    matcher: Box<Matcher<'p>>,
}

/// Written out, so that crates which give one up need to know nothing of what is in it.
impl Drop for Finder<'_> {
    fn drop(self) {
        let Finder {
            regex: _,
            matcher: _,
        } = self;
    }
}

impl<'p> Model for Finder<'p> {
    ghost use Rattle.std.specs.Prelude.{◌≡◌, ℕ, List};
    ghost use Rattle.regex.specs.Strings.{matcher_pattern, regex_config, regex_pattern};
    ghost use Rattle.regex.specs.Strings.{regex_source, IsReadFromSource};
    ghost use Rattle.query_values.specs.Pattern.{any_case};

    ghost Value = { List ℕ };

    ghost view = { λ f. regex_source f.regex.now.value };

    ghost invariant = { λ f. (regex_config f.regex.now.value ≡ any_case)
        × IsReadFromSource f.regex.now.value
        × (matcher_pattern f.matcher.value ≡ regex_pattern f.regex.now.value) };
}

impl Pattern {
    /// The pattern that a text writes.
    pub fn new(alloc: Global, text: &str) -> Result<Pattern, Refusal<PatternCause>>
        ensures { IfOk result (λ p. p ≡ text.now) }
    {
        match RegexBuilder::new(text).case_insensitive(true).build(alloc) {
            Ok(regex) => Ok(Pattern {
                regex: Box::new(alloc, regex)?,
            }),
            Err(regex::Error::OutOfMemory) => Err(Refusal::OutOfMemory),
            Err(_) => Err(Refusal::Refused(PatternCause::NotBuilt)),
        }
    }

    /// What searches for it.
    pub fn finder(&self, alloc: Global) -> Result<Finder<'_>, AllocError>
        ensures { IfOk result (λ f. f ≡ self.now) }
    {
        Ok(Finder {
            regex: &self.regex,
            matcher: Box::new(alloc, self.regex.matcher(alloc)?)?,
        })
    }
}

impl Finder<'_> {
    /// Whether the pattern is found somewhere in a text.
    pub fn finds(&mut self, text: &str) -> bool
        ensures found { result ≡ is_found self.old text.now }
        ensures same { self.new ≡ self.old }
    {
        self.matcher.is_match(text)
    }
}
