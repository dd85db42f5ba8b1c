//! The components of accounts' names, and where a root stands.
ghost use Rattle.std.specs.Prelude.{◌≡◌, ◌<◌, ◌≤◌, count_by, length, slice_index};
ghost use Rattle.bean_base.specs.Character.{colon};
ghost use Rattle.bean_base.specs.Name.{is_colon};
ghost use Rattle.query_values.specs.Component.{end_after, leaf_part, parent_part, rank_of};
ghost use Rattle.query_values.specs.Component.{root_part, root_rank};

use bean_base::Root;

/// How many colons a name has.
fn colons_in(name: &[u8]) -> usize
    ensures { result ≡ count_by is_colon name.now }
{
    name.iter().filter(|b| **b == b':').count()
}

/// The place of the colon behind so many components, or the end of a name that has no more.
#[tactic(auto, using(crate::proofs::ComponentFacts::of_components))]
fn end_of(name: &[u8], components: usize) -> usize
    requires { 0 < components }
    ensures place { result ≡ end_after components name.now }
    ensures within { result ≤ length name.now }
    ensures colon { result < length name.now → slice_index name.now result ≡ colon }
{
    let mut left = components;
    for (i, b) in name.iter().enumerate() {
        if *b == b':' {
            if left == 1 {
                return i;
            }
            left -= 1;
        }
    }
    name.len()
}

/// The first components of a name, so many.
pub(crate) fn root_of(name: &str, components: usize) -> &str
    requires { 0 < components }
    ensures { result.now ≡ root_part components name.now }
{
    &name[..end_of(name.as_bytes(), components)]
}

/// All components of a name but the last.
pub(crate) fn parent_of(name: &str) -> &str
    ensures { result.now ≡ parent_part name.now }
{
    let colons = colons_in(name.as_bytes());
    if colons == 0 {
        return "";
    }
    root_of(name, colons)
}

/// The last component of a name.
pub(crate) fn leaf_of(name: &str) -> &str
    ensures { result.now ≡ leaf_part name.now }
{
    let colons = colons_in(name.as_bytes());
    if colons == 0 {
        return name;
    }
    let end = end_of(name.as_bytes(), colons);
    &name[end + 1..]
}

/// The place of a root among the roots, 5 for what is none.
fn rank(root: Option<Root>) -> u8
    ensures { result ≡ rank_of root }
{
    match root {
        Some(Root::Assets) => 0,
        Some(Root::Liabilities) => 1,
        Some(Root::Equity) => 2,
        Some(Root::Income) => 3,
        Some(Root::Expenses) => 4,
        None => 5,
    }
}

/// The rank of the first component of a name.
pub(crate) fn rank_of_root(name: &str) -> u8
    ensures { result ≡ root_rank name.now }
{
    let root = match name.split_once(':') {
        Some((first, _)) => first,
        None => name,
    };
    rank(Root::of(root))
}
