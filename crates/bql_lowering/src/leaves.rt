//! What the machine loads for expressions without parts.
ghost use Rattle.std.specs.Prelude.{◌≡◌, ◌≤◌, false, length, IfOk};
ghost use Rattle.bql_code.specs.Core as core_form;
ghost use Rattle.bql_code.specs.Core.{loading};
ghost use Rattle.bql_code.specs.Kept.{core_of, entry_of};
ghost use Rattle.bql_lowering.specs.Lowered as rule;
ghost use Rattle.bql_parser.specs.Small.{IsSmallLeaf};
ghost use Rattle.bql_tree.specs.declared.tree.Leaf.TheVariants as leaves;
ghost use Rattle.limits.specs.declared.counts.TheConstants.{LARGEST_QUERY};

use bean_base::Slice;
use bql_code::{Change, Core, Entry, Load, ShortText};
use bql_tree::Leaf;
use query_terms::Column;
use std::alloc::{AllocError, Global};

fn constant<'a>(entry: Entry<'a>) -> Core<'a>
    ensures { core_of result ≡ loading (core_form.constant (entry_of entry.entry)) }
{
    Core::Load(Load::Constant(entry))
}

/// What stands for an expression that no query has which has a type.
pub(crate) fn nothing<'a>() -> Core<'a>
    ensures { core_of result ≡ loading (core_form.truth false) }
{
    Core::Load(Load::Truth(false))
}

/// Whether an account of the transaction matches a pattern.
fn has_account<'a>(alloc: Global, pattern: &Slice<'a>) -> Result<Core<'a>, AllocError>
    requires { length pattern.now ≤ LARGEST_QUERY }
    ensures { IfOk result (λ r. core_of r ≡ rule.of_leaf (leaves.HasAccount pattern.now)) }
{
    let accounts = Core::Load(Load::Column(Column::Accounts));
    let pattern = ShortText::new(pattern);
    Ok(Core::Change(Change::SomeMatch(pattern), Box::new(alloc, accounts)?))
}

/// What a leaf is.
pub(crate) fn of_leaf<'a>(alloc: Global, leaf: &Leaf<'a>) -> Result<Core<'a>, AllocError>
    requires { IsSmallLeaf leaf.now }
    ensures { IfOk result (λ r. core_of r ≡ rule.of_leaf leaf.now) }
{
    match leaf {
        Leaf::Column(column) => Ok(Core::Load(Load::Column(*column))),
        Leaf::Number(number) => Ok(constant(Entry::number(*number))),
        Leaf::Text(text) => Ok(constant(Entry::text(ShortText::new(text)))),
        Leaf::Day(day) => Ok(constant(Entry::day(*day))),
        Leaf::Truth(value) => Ok(Core::Load(Load::Truth(*value))),
        Leaf::Meta(owner, key) => Ok(Core::Load(Load::Metadata(*owner, ShortText::new(key)))),
        Leaf::HasAccount(pattern) => has_account(alloc, pattern),
        Leaf::Null | Leaf::TooWide(_) | Leaf::Rows => Ok(nothing()),
    }
}
