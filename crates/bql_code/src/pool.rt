//! The pool of a program: its constants in order of first use, equal ones once.
ghost use Rattle.std.specs.Prelude.{◌≡◌, ◌<◌, ◌≤◌, ◌^◌, [], ◌∷◌, length, map, IfOk, OnOk};
ghost use Rattle.std.specs.Cmp.Lexicographic.{pointwise};
ghost use Rattle.std.specs.Ordering.{int_eq};
ghost use Rattle.query_code.specs.ByteForm.{AllFit};
ghost use Rattle.query_code.specs.QueryFile as query_file;
ghost use Rattle.query_code.specs.declared.program.Constant.TheVariants as programs;
ghost use Rattle.query_values.specs.Choice as choice;
ghost use Rattle.bql_code.specs.Kept as view;
ghost use Rattle.bql_code.specs.Literals as literals;
ghost use Rattle.bql_code.specs.Pool as rule;

use crate::computed::{Change, Core, Load};
use crate::entry::Entry;
use crate::literal::{Literal, ShortText};
use bean_base::{Day, List};
use query_code::{Constant, Numbers, TextList};
use std::alloc::{AllocError, Global};
use std::marker::Model;

fn same_texts(a: &[ShortText<'_>], b: &[ShortText<'_>]) -> bool
    ensures { result ≡ pointwise rule.same_text (map literals.text_of a.now) (map literals.text_of b.now) }
{
    if a.len() != b.len() {
        return false;
    }
    for i in 0..a.len() {
        if a[i].text != b[i].text {
            return false;
        }
    }
    true
}

fn same_counts(a: &[i128], b: &[i128]) -> bool
    ensures { result ≡ pointwise int_eq a.now b.now }
{
    a == b
}

fn same_day(a: Day, b: Day) -> bool
    ensures { result ≡ choice.same_day a b }
{
    a.number() == b.number()
}

fn same_days(a: &[Day], b: &[Day]) -> bool
    ensures { result ≡ pointwise choice.same_day a.now b.now }
{
    if a.len() != b.len() {
        return false;
    }
    for i in 0..a.len() {
        if !same_day(a[i], b[i]) {
            return false;
        }
    }
    true
}

fn same_numbers(a: &Numbers, b: &Numbers) -> bool
    ensures { result ≡ rule.same_numbers a.now b.now }
{
    a.places == b.places && same_counts(a.counts.as_slice(), b.counts.as_slice())
}

/// Whether two constants are equal: of one kind, and the same; numbers by their counts and decimals.
fn same(a: &Literal<'_>, b: &Literal<'_>) -> bool
    ensures { result ≡ rule.same_constant (literals.constant_of a.now) (literals.constant_of b.now) }
{
    match (a, b) {
        (Literal::Text(s), Literal::Text(t)) => s.text == t.text,
        (Literal::Number(m), Literal::Number(n)) => m.places == n.places && m.count == n.count,
        (Literal::Day(d), Literal::Day(e)) => same_day(*d, *e),
        (Literal::Pattern(s), Literal::Pattern(t)) => s.text == t.text,
        (Literal::Texts(s), Literal::Texts(t)) => same_texts(s.as_slice(), t.as_slice()),
        (Literal::Numbers(m), Literal::Numbers(n)) => same_numbers(m, n),
        (Literal::Days(d), Literal::Days(e)) => same_days(d.as_slice(), e.as_slice()),
        _ => false,
    }
}

/// The same items once more.
fn copied<T: Copy + Drop>(alloc: Global, items: &[T]) -> Result<List<T>, AllocError>
    ensures { IfOk result (λ list. list ≡ items.now) }
{
    Ok(List::new(Vec::from_slice(alloc, items)?))
}

/// The same texts once more.
fn lent<'a>(alloc: Global, texts: &[ShortText<'a>]) -> Result<List<ShortText<'a>>, AllocError>
    ensures { IfOk result (λ list. map literals.text_of list ≡ map literals.text_of texts.now) }
{
    let mut list = List::new(Vec::new(alloc));
    for text in texts {
        list.push(text.lend())?;
    }
    Ok(list)
}

/// The same constant once more.
fn literal_again<'a>(alloc: Global, literal: &Literal<'a>) -> Result<Literal<'a>, AllocError>
    ensures { IfOk result (λ again. literals.constant_of again ≡ literals.constant_of literal.now) }
{
    Ok(match literal {
        Literal::Text(text) => Literal::Text(text.lend()),
        Literal::Number(number) => Literal::Number(*number),
        Literal::Day(day) => Literal::Day(*day),
        Literal::Pattern(text) => Literal::Pattern(text.lend()),
        Literal::Texts(texts) => Literal::Texts(lent(alloc, texts.as_slice())?),
        Literal::Numbers(numbers) => Literal::Numbers(Numbers {
            places: numbers.places,
            counts: copied(alloc, numbers.counts.as_slice())?,
        }),
        Literal::Days(days) => Literal::Days(copied(alloc, days.as_slice())?),
    })
}

fn again<'a>(alloc: Global, entry: &Entry<'a>) -> Result<Entry<'a>, AllocError>
    ensures { IfOk result (λ again. view.entry_of again ≡ view.entry_of entry.now) }
{
    Ok(Entry {
        literal: literal_again(alloc, &entry.literal)?,
    })
}

/// The texts as a file has them.
fn text_list<'a>(alloc: Global, texts: &[ShortText<'a>]) -> Result<TextList<'a>, AllocError>
    requires { length texts.now < 2 ^ 16 }
    ensures { IfOk result (λ list. list ≡ map literals.text_of texts.now) }
{
    let mut list = TextList::new(alloc);
    for text in texts {
        list.push(text.text.text())?;
    }
    Ok(list)
}

/// The constant as a program has it.
fn constant<'a>(alloc: Global, entry: &Entry<'a>) -> Result<Constant<'a>, AllocError>
    ensures { IfOk result (λ c. c ≡ literals.constant_of entry.now.literal) }
{
    Ok(match &entry.literal {
        Literal::Text(text) => Constant::Text(text.text.lend()),
        Literal::Number(number) => Constant::Number(*number),
        Literal::Day(day) => Constant::Day(*day),
        Literal::Pattern(text) => Constant::Pattern(text.text.lend()),
        Literal::Texts(texts) => Constant::Texts(text_list(alloc, texts.as_slice())?),
        Literal::Numbers(numbers) => Constant::Numbers(Numbers {
            places: numbers.places,
            counts: copied(alloc, numbers.counts.as_slice())?,
        }),
        Literal::Days(days) => Constant::Days(copied(alloc, days.as_slice())?),
    })
}

fn constants<'a>(alloc: Global, entries: &[Entry<'a>]) -> Result<List<Constant<'a>>, AllocError>
    ensures { IfOk result (λ list. list ≡ view.constants_of entries.now) }
{
    let mut list = List::new(Vec::new(alloc));
    for entry in entries {
        list.push(constant(alloc, entry)?)?;
    }
    Ok(list)
}

/// The index of the first entry that is equal, or how many there are.
fn index_in(entries: &[Entry<'_>], literal: &Literal<'_>) -> usize
    ensures index { result ≡ rule.index_in (view.constants_of entries.now)
        (literals.constant_of literal.now) }
    ensures within { result ≤ length entries.now }
{
    for i in 0..entries.len() {
        if same(literal, &entries[i].literal) {
            return i;
        }
    }
    entries.len()
}

/// The constants that expressions use, in order of first use, equal ones once. Its value is the list
/// of them.
pub struct Pool<'a> {
    entries: Vec<Entry<'a>>,
}

/// Written out, so that what gives one up needs to know nothing of what is in it.
impl Drop for Pool<'_> {
    fn drop(self) {
        let Pool { entries: _ } = self;
    }
}

impl<'a> Model for Pool<'a> {
    ghost use Rattle.std.specs.Prelude.{List};
    ghost use Rattle.query_code.specs.declared.program.Constant as programs;
    ghost use Rattle.bql_code.specs.Kept.{constants_of};

    ghost Value = { List programs.Constant };

    ghost view = { λ p. constants_of p.entries.items };
}

impl<'a> Pool<'a> {
    /// No constants. Takes no memory.
    pub fn new(alloc: Global) -> Pool<'a>
        ensures { result ≡ [] }
    {
        Pool {
            entries: Vec::new(alloc),
        }
    }

    /// How many constants there are.
    pub fn len(&self) -> usize
        ensures { result ≡ length self.now }
    {
        self.entries.len()
    }

    /// The index of the first that is equal, or of what would come next.
    pub fn index_of(&self, literal: &Literal<'_>) -> usize
        ensures index { result ≡ rule.index_in self.now (literals.constant_of literal.now) }
        ensures within { result ≤ length self.now }
    {
        index_in(self.entries.as_slice(), literal)
    }

    /// Adds a constant, unless an equal one is there.
    fn intern(&mut self, alloc: Global, entry: &Entry<'a>) -> Result<(), AllocError>
        ensures { OnOk result (self.new
            ≡ rule.pooled self.old (literals.constant_of entry.now.literal ∷ [])) }
    {
        if self.index_of(&entry.literal) == self.len() {
            self.entries.push(again(alloc, entry)?)?;
        }
        Ok(())
    }

    /// Adds a text, unless it is there.
    fn intern_text(&mut self, alloc: Global, text: &ShortText<'a>) -> Result<(), AllocError>
        ensures { OnOk result (self.new
            ≡ rule.pooled self.old (programs.Text text.now.text ∷ [])) }
    {
        self.intern(alloc, &Entry::text(text.lend()))
    }

    /// Adds a pattern, unless it is there.
    fn intern_pattern(&mut self, alloc: Global, text: &ShortText<'a>) -> Result<(), AllocError>
        ensures { OnOk result (self.new
            ≡ rule.pooled self.old (programs.Pattern text.now.text ∷ [])) }
    {
        self.intern(alloc, &Entry::pattern(text.lend()))
    }

    fn collect_load(&mut self, alloc: Global, load: &Load<'a>) -> Result<(), AllocError>
        ensures { OnOk result (self.new ≡ rule.pooled self.old (rule.loaded (view.load_of load.now))) }
    {
        match load {
            Load::Constant(entry) => self.intern(alloc, entry),
            Load::Metadata(_, key) => self.intern_text(alloc, key),
            _ => Ok(()),
        }
    }

    fn collect_change(&mut self, alloc: Global, change: &Change<'a>) -> Result<(), AllocError>
        ensures { OnOk result (self.new
            ≡ rule.pooled self.old (rule.changed (view.change_of change.now))) }
    {
        match change {
            Change::Plain(_) => Ok(()),
            Change::Matches(pattern) => self.intern_pattern(alloc, pattern),
            Change::SomeMatch(pattern) => self.intern_pattern(alloc, pattern),
            Change::Among(entry) => self.intern(alloc, entry),
        }
    }

    /// Adds the constants that an expression uses, in the order of its instructions.
    #[tactic(auto, using(crate::proofs::PoolFacts::pooled_behind))]
    pub fn collect(&mut self, alloc: Global, core: &Core<'a>) -> Result<(), AllocError>
        ensures { OnOk result (self.new ≡ rule.pooled self.old (rule.used (view.core_of core.now))) }
    {
        match core {
            Core::Load(load) => self.collect_load(alloc, load),
            Core::Change(change, x) => {
                self.collect(alloc, x)?;
                self.collect_change(alloc, change)
            }
            Core::Join(_, x, y) => {
                self.collect(alloc, x)?;
                self.collect(alloc, y)
            }
            Core::And(x, y) => {
                self.collect(alloc, x)?;
                self.collect(alloc, y)
            }
            Core::Or(x, y) => {
                self.collect(alloc, x)?;
                self.collect(alloc, y)
            }
        }
    }

    /// Adds the constants that some expressions use.
    #[tactic(auto, using(crate::proofs::PoolFacts::pooled_behind))]
    pub fn collect_all(&mut self, alloc: Global, cores: &[Core<'a>]) -> Result<(), AllocError>
        ensures { OnOk result (self.new
            ≡ rule.pooled self.old (rule.all_used (view.cores_of cores.now))) }
    {
        for core in cores {
            self.collect(alloc, core)?;
        }
        Ok(())
    }

    /// The constants as a program has them: each as a file can hold it.
    pub fn constants(&self, alloc: Global) -> Result<List<Constant<'a>>, AllocError>
        ensures constants { IfOk result (λ list. list ≡ self.now) }
        ensures forms { IfOk result (λ list. ∥ AllFit query_file.constant list ∥₁) }
    {
        constants(alloc, self.entries.as_slice())
    }
}
