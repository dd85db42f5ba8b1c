//! What becomes of the rows that a query's program gives.
ghost use Rattle.std.specs.Prelude.{◌≡◌, ◌-◌, ◌<◌, ◌≤◌, ◌^◌, length, map, IfOk, IfSome};
ghost use Rattle.std.specs.List.{AllByRecursion};
ghost use Rattle.bql_code.specs.Literals.{text_of};
ghost use Rattle.bql_compiler.specs.Output as rule;
ghost use Rattle.bql_parser.specs.Answer.{query_of};
ghost use Rattle.bql_parser.specs.View.{target_of};
ghost use Rattle.bql_plan.specs.Kept.{numbered_of};
ghost use Rattle.bql_compiler.specs.Program as scheme;
ghost use Rattle.limits.specs.declared.counts.TheConstants.{LARGEST_QUERY, MOST_VALUES};
ghost use Rattle.query_code.specs.ByteForm.{AllFit};
ghost use Rattle.query_code.specs.TextForm as text_form;

use bean_base::{List, Slice};
use bql_code::ShortText;
use bql_parser::{Query, Target};
use bql_plan::Numbering;
use query_code::Output;
use std::alloc::{AllocError, Global};

/// The name of a target.
fn name_of<'a>(target: &Target<'a>) -> ShortText<'a>
    requires { length target.now.name ≤ LARGEST_QUERY }
    ensures { text_of result ≡ target.now.name }
{
    ShortText::new(&target.name)
}

/// The names of targets.
fn names_of<'a>(alloc: Global, targets: &[Target<'a>]) -> Result<Vec<ShortText<'a>>, AllocError>
    requires { AllByRecursion rule.HasShortName (map target_of targets.now) }
    ensures { IfOk result (λ names. map text_of names.items
        ≡ map scheme.target_name (map target_of targets.now)) }
{
    let mut names = Vec::new(alloc);
    for target in targets {
        names.push(name_of(target))?;
    }
    Ok(names)
}

/// The slices of texts.
fn slices<'a>(alloc: Global, texts: &[ShortText<'a>]) -> Result<List<Slice<'a>>, AllocError>
    ensures { IfOk result (λ list. list ≡ map text_of texts.now) }
{
    let mut list = List::new(Vec::new(alloc));
    for text in texts {
        list.push(text.text.lend())?;
    }
    Ok(list)
}

/// Texts as a program has them.
fn slices_of<'a>(alloc: Global, texts: &[ShortText<'a>]) -> Result<List<Slice<'a>>, AllocError>
    ensures texts { IfOk result (λ list. list ≡ map text_of texts.now) }
    ensures forms { IfOk result (λ list. ∥ AllFit text_form.text list ∥₁) }
{
    slices(alloc, texts)
}

/// Columns as a program has them.
fn columns_of(alloc: Global, columns: &[usize]) -> Result<List<u8>, AllocError>
    requires { AllByRecursion (λ i. i < 256) columns.now }
    ensures { IfOk result (λ list. list ≡ columns.now) }
{
    let mut list = List::new(Vec::new(alloc));
    for column in columns {
        list.push(*column as u8)?;
    }
    Ok(list)
}

/// How many columns stand behind those of the targets, of which there is at least one.
fn hidden_behind(shown: usize, targets: usize) -> u8
    requires some { 1 ≤ targets }
    requires all { targets ≤ shown }
    requires few { shown ≤ MOST_VALUES }
    ensures { result ≡ shown - targets }
{
    (shown - targets) as u8
}

/// The most rows.
fn limit_of(limit: Option<u32>) -> Option<u32>
    ensures is { result ≡ limit }
    ensures wide { IfSome result (λ n. n < 2 ^ 32) }
{
    limit
}

/// What becomes of the rows of a query's program, where its columns have room on the stack.
pub(crate) fn output_of<'q, 'a>(
    alloc: Global,
    query: &'q Query<'a>,
    numbering: &Numbering<'q, 'a>,
) -> Result<Output<'a>, AllocError>
    requires room { rule.HasRoom (query_of query.now) (numbered_of numbering.now) }
    ensures output { IfOk result (λ o. o
        ≡ scheme.output_of (query_of query.now) (numbered_of numbering.now)) }
    ensures names { IfOk result (λ o. ∥ AllFit text_form.text o.targets ∥₁) }
    ensures limit { IfOk result (λ o. IfSome o.limit (λ n. n < 2 ^ 32)) }
{
    let targets = query.targets.as_slice();
    let names = names_of(alloc, targets)?;
    let order = columns_of(alloc, numbering.order.as_slice())?;
    Ok(Output {
        is_distinct: query.distinct,
        is_descending: query.order.descending,
        limit: limit_of(query.limit),
        targets: slices_of(alloc, names.as_slice())?,
        hidden: hidden_behind(numbering.shown.len(), targets.len()),
        order,
    })
}
