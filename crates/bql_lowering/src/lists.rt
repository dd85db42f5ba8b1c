//! IN with a list: its members as a constant of the pool.
ghost use Rattle.std.specs.Prelude.{◌≡◌, ◌≤◌, ◌-◌, ◌^◌, ◌*ℤ◌, ◌++◌, pos, length, map, IsTrue, IfOk, OnOk};
ghost use Rattle.std.specs.List.{AllByRecursion};
ghost use Rattle.bql_code.specs.Core.{changing, among};
ghost use Rattle.bql_code.specs.Kept.{core_of, entry_of};
ghost use Rattle.bql_code.specs.Literals.{text_of};
ghost use Rattle.bql_lowering.specs.Kind as kind_rule;
ghost use Rattle.bql_lowering.specs.Listed as listed;
ghost use Rattle.bql_lowering.specs.Lowered as rule;
ghost use Rattle.bql_lowering.specs.declared.kind.ListKind.TheVariants as kinds;
ghost use Rattle.bql_parser.specs.Small.{IsSmallTree, AreSmallTrees};
ghost use Rattle.bql_tree.specs.Tree.{tree_of, trees_of, trees, no_trees};
ghost use Rattle.limits.specs.declared.counts.TheConstants.{LARGEST_QUERY, MOST_PLACES};
ghost use Rattle.query_code.specs.QueryFile.{is_count};
ghost use Rattle.query_code.specs.declared.program.Constant.TheVariants as constants;

use crate::kind::{ListKind, first_kind};
use crate::operations::aligned;
use bean_base::{Day, List, power_of_ten};
use bql_code::{Change, Core, Entry, ShortText};
use bql_tree::{Expr, Leaf};
use query_code::Numbers;
use query_terms::Decimal;
use std::alloc::{AllocError, Global};

/// The greater count of decimals, of a member that is a number.
fn with_member(most: u8, member: &Expr<'_>) -> u8
    ensures { result ≡ rule.most_places most (trees (tree_of member.now) no_trees) }
{
    match member {
        Expr::Leaf(_, Leaf::Number(number)) => most.max(number.places),
        _ => most,
    }
}

/// The greatest count of decimals of what is looked for and of the numbers of a list.
fn most_places(places: u8, members: &[Expr<'_>]) -> u8
    ensures { result ≡ rule.most_places places (trees_of members.now) }
{
    let mut most = places;
    for member in members {
        most = with_member(most, member);
    }
    most
}

fn add_text<'a>(texts: &mut List<ShortText<'a>>, member: &Expr<'a>) -> Result<(), AllocError>
    requires { IsSmallTree (tree_of member.now) }
    ensures { OnOk result (map text_of texts.new
        ≡ map text_of texts.old ++ rule.text_in (tree_of member.now)) }
{
    match member {
        Expr::Leaf(_, Leaf::Text(text)) => texts.push(ShortText::new(text)),
        _ => Ok(()),
    }
}

/// The texts of a list.
fn texts_in<'a>(alloc: Global, members: &[Expr<'a>]) -> Result<List<ShortText<'a>>, AllocError>
    requires { AreSmallTrees (trees_of members.now) }
    ensures { IfOk result (λ texts. map text_of texts
        ≡ rule.each_in rule.text_in (trees_of members.now)) }
{
    let mut texts = List::new(Vec::new(alloc));
    for member in members {
        add_text(&mut texts, member)?;
    }
    Ok(texts)
}

fn add_day(days: &mut List<Day>, member: &Expr<'_>) -> Result<(), AllocError>
    ensures { OnOk result (days.new ≡ days.old ++ rule.day_in (tree_of member.now)) }
{
    match member {
        Expr::Leaf(_, Leaf::Day(day)) => days.push(*day),
        _ => Ok(()),
    }
}

/// The days of a list.
fn days_in(alloc: Global, members: &[Expr<'_>]) -> Result<List<Day>, AllocError>
    ensures { IfOk result (λ days. days ≡ rule.each_in rule.day_in (trees_of members.now)) }
{
    let mut days = List::new(Vec::new(alloc));
    for member in members {
        add_day(&mut days, member)?;
    }
    Ok(days)
}

/// The count of a number with so many decimals, which it has room for.
fn scaled(number: Decimal, places: u8) -> i128
    requires narrow { places ≤ MOST_PLACES }
    requires more { number.places ≤ places }
    requires held { IsTrue (is_count (number.count *ℤ pos (10 ^ (places - number.places)))) }
    ensures { result ≡ number.count *ℤ pos (10 ^ (places - number.places)) }
{
    number.count * power_of_ten(places - number.places)
}

fn add_count(counts: &mut List<i128>, places: u8, member: &Expr<'_>) -> Result<(), AllocError>
    requires narrow { places ≤ MOST_PLACES }
    requires held { listed.IsHeldWith places (tree_of member.now) }
    ensures { OnOk result (counts.new ≡ counts.old ++ rule.count_in places (tree_of member.now)) }
{
    match member {
        Expr::Leaf(_, Leaf::Number(number)) => counts.push(scaled(*number, places)),
        _ => Ok(()),
    }
}

/// The counts of the numbers of a list, each with so many decimals.
fn counts_in(alloc: Global, places: u8, members: &[Expr<'_>]) -> Result<List<i128>, AllocError>
    requires narrow { places ≤ MOST_PLACES }
    requires held { listed.AreHeldWith places (trees_of members.now) }
    ensures { IfOk result (λ counts. counts
        ≡ rule.each_in (rule.count_in places) (trees_of members.now)) }
{
    let mut counts = List::new(Vec::new(alloc));
    for member in members {
        add_count(&mut counts, places, member)?;
    }
    Ok(counts)
}

/// The texts of a list, as a constant of the pool.
fn list_of_texts<'a>(alloc: Global, members: &[Expr<'a>]) -> Result<Entry<'a>, AllocError>
    requires some { 1 ≤ length (rule.each_in rule.text_in (trees_of members.now)) }
    requires few { length (rule.each_in rule.text_in (trees_of members.now)) ≤ LARGEST_QUERY }
    requires small { AreSmallTrees (trees_of members.now) }
    ensures { IfOk result (λ list. entry_of list
        ≡ constants.Texts (rule.each_in rule.text_in (trees_of members.now))) }
{
    Ok(Entry::texts(texts_in(alloc, members)?))
}

/// The days of a list, as a constant of the pool.
fn list_of_days<'a>(alloc: Global, members: &[Expr<'a>]) -> Result<Entry<'a>, AllocError>
    requires some { 1 ≤ length (rule.each_in rule.day_in (trees_of members.now)) }
    requires few { length (rule.each_in rule.day_in (trees_of members.now)) ≤ LARGEST_QUERY }
    ensures { IfOk result (λ list. entry_of list
        ≡ constants.Days (rule.each_in rule.day_in (trees_of members.now))) }
{
    Ok(Entry::days(days_in(alloc, members)?))
}

/// The numbers of a list with so many decimals, as a constant of the pool.
fn list_of_numbers<'a>(
    alloc: Global,
    places: u8,
    members: &[Expr<'a>],
) -> Result<Entry<'a>, AllocError>
    requires some { 1 ≤ length (rule.each_in (rule.count_in places) (trees_of members.now)) }
    requires few { length (rule.each_in (rule.count_in places) (trees_of members.now))
        ≤ LARGEST_QUERY }
    requires narrow { places ≤ MOST_PLACES }
    requires held { listed.AreHeldWith places (trees_of members.now) }
    requires counts { AllByRecursion (λ c. IsTrue (is_count c))
        (rule.each_in (rule.count_in places) (trees_of members.now)) }
    ensures { IfOk result (λ list. entry_of list
        ≡ rule.list_by kinds.Numbers places (trees_of members.now)) }
{
    let counts = counts_in(alloc, places, members)?;
    Ok(Entry::numbers(Numbers { places, counts }))
}

/// The members of a list as the first of them is: texts, days, or numbers with so many decimals.
fn list_by<'a>(alloc: Global, places: u8, members: &[Expr<'a>]) -> Result<Entry<'a>, AllocError>
    requires { listed.IsListed places (trees_of members.now) }
    ensures { IfOk result (λ list. entry_of list
        ≡ rule.list_by (kind_rule.first_kind (trees_of members.now)) places (trees_of members.now)) }
{
    match first_kind(members) {
        ListKind::Texts => list_of_texts(alloc, members),
        ListKind::Days => list_of_days(alloc, members),
        ListKind::Numbers => list_of_numbers(alloc, places, members),
    }
}

/// What is looked for in a list: a number, which has so many decimals, or another value.
pub(crate) fn in_list<'a>(
    alloc: Global,
    places: Option<u8>,
    x: Core<'a>,
    members: &[Expr<'a>],
) -> Result<Core<'a>, AllocError>
    requires { listed.IsListed (rule.list_places places (trees_of members.now))
        (trees_of members.now) }
    ensures { IfOk result (λ r. core_of r
        ≡ rule.in_list places (core_of x.entry) (trees_of members.now)) }
{
    let x = Box::new(alloc, x)?;
    let (x, most) = match places {
        Some(places) => {
            let most = most_places(places, members);
            (aligned(alloc, places, most, x)?, most)
        }
        None => (x, 0),
    };
    let list = list_by(alloc, most, members)?;
    Ok(Core::Change(Change::Among(list), x))
}
