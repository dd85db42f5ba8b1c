//! Queries of clauses, or the least causes for which they are refused.
ghost use Rattle.std.specs.Prelude.{◌≡◌, IfOk};
ghost use Rattle.bql_grammar.specs.Read as views;
ghost use Rattle.bql_parser.specs.Settled as rule;
ghost use Rattle.bql_parser.specs.View.{draft_of};

use crate::query::Draft;
use crate::settling::{filter, filters, group, order, targets};
use crate::standing;
use crate::standing::Valuation;
use bql_grammar::clauses::{BalancesRead, JournalRead, NameRead, QueryRead, SelectRead};
use bql_tree::PartCause;
use bql_tree::cause::both;
use bql_tree::function::is_left_out;
use std::alloc::{AllocError, Global};

fn select<'a>(
    alloc: Global,
    read: SelectRead<'a>,
) -> Result<Result<Draft<'a>, PartCause>, AllocError>
    ensures { IfOk result (λ r. rule.mapped draft_of r ≡ rule.select (views.select_of read.entry)) }
{
    let (distinct, limit) = (read.distinct, read.limit);
    let reads = read.targets;
    let filters = filters(read.filters);
    let group = group(alloc, reads.as_slice(), read.group)?;
    let order = order(alloc, reads.as_slice(), read.order)?;
    let targets = targets(alloc, reads)?;
    let found = both(both(both(targets, filters), group), order);
    match found {
        Ok((((targets, filters), group), order)) => Ok(Ok(Draft {
            distinct,
            targets,
            filters,
            group,
            order,
            limit,
        })),
        Err(cause) => Ok(Err(cause)),
    }
}

fn valuation_of(name: &NameRead<'_>) -> Result<Valuation, PartCause>
    ensures { result ≡ rule.valuation_of name.now }
{
    let word = name.text.text();
    if word.eq_ignore_ascii_case("units") {
        Ok(Valuation::Units)
    } else if word.eq_ignore_ascii_case("cost") {
        Ok(Valuation::Cost)
    } else if is_left_out(word) {
        Err(PartCause::outside_profile(name.start))
    } else {
        Err(PartCause::unknown_name(name.start))
    }
}

/// What AT names.
fn at(name: Option<NameRead<'_>>) -> Result<Option<Valuation>, PartCause>
    ensures { result ≡ rule.at name.entry }
{
    let Some(name) = name else {
        return Ok(None);
    };
    match valuation_of(&name) {
        Ok(valuation) => Ok(Some(valuation)),
        Err(cause) => Err(cause),
    }
}

fn journal<'a>(
    alloc: Global,
    read: JournalRead<'a>,
) -> Result<Result<Draft<'a>, PartCause>, AllocError>
    ensures { IfOk result (λ r. rule.mapped draft_of r ≡ rule.journal (views.journal_of read.entry)) }
{
    let pattern = read.pattern;
    match both(at(read.at), filter(read.from)) {
        Ok((at, from)) => Ok(Ok(standing::journal(alloc, pattern, at, from)?)),
        Err(cause) => Ok(Err(cause)),
    }
}

fn balances<'a>(
    alloc: Global,
    read: BalancesRead<'a>,
) -> Result<Result<Draft<'a>, PartCause>, AllocError>
    ensures { IfOk result (λ r. rule.mapped draft_of r ≡ rule.balances (views.balances_of read.entry)) }
{
    match both(at(read.at), filters(read.filters)) {
        Ok((at, filters)) => Ok(Ok(standing::balances(alloc, at, filters)?)),
        Err(cause) => Ok(Err(cause)),
    }
}

/// The query of the clauses, or the least cause for which it is refused.
pub fn settled<'a>(
    alloc: Global,
    read: QueryRead<'a>,
) -> Result<Result<Draft<'a>, PartCause>, AllocError>
    ensures { IfOk result (λ r. rule.mapped draft_of r ≡ rule.settled (views.read_of read.entry)) }
{
    match read {
        QueryRead::Select(read) => select(alloc, read),
        QueryRead::Journal(read) => journal(alloc, read),
        QueryRead::Balances(read) => balances(alloc, read),
    }
}
