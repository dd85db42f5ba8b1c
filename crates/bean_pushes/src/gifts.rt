//! What pushes give, as it stands apart until all of it is known.
ghost use Rattle.std.specs.Prelude.{◌≡◌, [], List, OnOk, option_copied, true};
ghost use Rattle.bean_directives.specs.declared.directive.Directive.{Directive};
ghost use Rattle.bean_pushes.specs.Gifts.{with_gifts, with_items};
ghost use Rattle.bean_pushes.specs.Scope.{given_between, given_up_to};

use bean_directives::{ApartDirective, Pushed};
use bean_grammar::{Mark, MetaEntry};
use given_items::{GivenItem, GivenItems};
use std::alloc::{AllocError, Global};

/// What is pushed is given at once while that comes to no more than so many items for each directive of
/// a text. What comes then is kept for all of them.
const AT_ONCE: usize = 8;

/// The tags and the entries that are kept, each with the places between which it is given.
#[derive(Drop)]
pub(crate) struct Gifts<'a> {
    tags: Vec<GivenItem<Mark<'a>>>,
    entries: Vec<GivenItem<MetaEntry<'a>>>,
    /// How many items may still be given at once.
    left: usize,
}

impl<'a> Gifts<'a> {
    /// Nothing is kept, of a text of so many directives.
    pub(crate) fn new(alloc: Global, directives: usize) -> Gifts<'a>
        ensures { (ds : List Directive) → with_gifts result ds ≡ ds }
    {
        Gifts {
            tags: Vec::new(alloc),
            entries: Vec::new(alloc),
            left: directives.saturating_mul(AT_ONCE),
        }
    }

    /// Whether so many items are given at once. Then nothing was kept before them.
    fn gives_at_once(&mut self, many: usize) -> bool
        ensures tags { result ≡ true → self.old.tags.items ≡ [] }
        ensures entries { result ≡ true → self.old.entries.items ≡ [] }
        ensures same_tags { self.new.tags.items ≡ self.old.tags.items }
        ensures same_entries { self.new.entries.items ≡ self.old.entries.items }
    {
        if !self.tags.is_empty() || !self.entries.is_empty() || many > self.left {
            return false;
        }
        self.left -= many;
        true
    }

    /// Keeps what is pushed for the transactions from one place up to another.
    fn keep(&mut self, pushed: &Pushed<'a>, from: usize, to: usize) -> Result<(), AllocError>
        ensures { OnOk result ((ds : List Directive) → with_gifts self.new ds
            ≡ given_between pushed.now from to 0 (with_gifts self.old ds)) }
    {
        match pushed {
            Pushed::Tag(tag) => {
                let item = Mark::Tag(tag.lend());
                self.tags.push(GivenItem { item, from, to })?;
            }
            Pushed::Entry(entry) => {
                let item = entry.lend();
                self.entries.push(GivenItem { item, from, to })?;
            }
        }
        Ok(())
    }

    /// What is pushed, if anything is, is given to the transactions from one place up to another, if
    /// there is one.
    pub(crate) fn add(
        &mut self,
        alloc: Global,
        pushed: Option<&Pushed<'a>>,
        from: usize,
        to: Option<usize>,
        directives: &mut Vec<ApartDirective<'a>>,
    ) -> Result<(), AllocError>
        ensures { OnOk result (with_gifts self.new directives.new.items
            ≡ given_up_to (option_copied pushed.entry) from to
            (with_gifts self.old directives.old.items)) }
    {
        match (pushed, to) {
            (Some(pushed), Some(to)) => {
                if self.gives_at_once(to.saturating_sub(from)) {
                    give_between(alloc, pushed, from, to, directives)?;
                    return Ok(());
                }
                self.keep(pushed, from, to)?;
                Ok(())
            }
            (_, _) => Ok(()),
        }
    }

    /// Gives each transaction what is kept for its place.
    pub(crate) fn give(
        self,
        alloc: Global,
        directives: &mut Vec<ApartDirective<'a>>,
    ) -> Result<(), AllocError>
        ensures { OnOk result (directives.new.items ≡ with_gifts self.entry directives.old.items) }
    {
        let Gifts {
            tags,
            entries,
            left: _,
        } = self;
        if tags.is_empty() && entries.is_empty() {
            return Ok(());
        }
        let tags = GivenItems::new(alloc, tags)?;
        let entries = GivenItems::new(alloc, entries)?;
        give_each(alloc, &tags, &entries, directives)
    }
}

/// Gives what is pushed to the transactions from one place up to another.
fn give_between<'a>(
    alloc: Global,
    pushed: &Pushed<'a>,
    from: usize,
    to: usize,
    directives: &mut Vec<ApartDirective<'a>>,
) -> Result<(), AllocError>
    ensures { OnOk result (directives.new.items
        ≡ given_between pushed.now from to 0 directives.old.items) }
{
    let mut i = from;
    while i < to && i < directives.len() {
        directives[i].give(alloc, pushed)?;
        i += 1;
    }
    Ok(())
}

/// Gives each transaction those of some tags and entries that are given at its place.
fn give_each<'a>(
    alloc: Global,
    tags: &GivenItems<Mark<'a>>,
    entries: &GivenItems<MetaEntry<'a>>,
    directives: &mut Vec<ApartDirective<'a>>,
) -> Result<(), AllocError>
    ensures { OnOk result (directives.new.items
        ≡ with_items tags.now entries.now directives.old.items) }
{
    let mut i = 0;
    while i < directives.len() {
        directives[i].give_shared(alloc, tags, entries, i)?;
        i += 1;
    }
    Ok(())
}
