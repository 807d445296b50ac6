//! How many numbers inlining hands out: counted before it writes.

ghost use Rattle.std.specs.Prelude.{◌≡◌, ◌+◌, ◌*◌, [], IfOk, length, map};
ghost use Rattle.lalrpop_lr1_inline.specs.NumberCounts.{becomes_many, choices_at, counts_of, counts_to_limit, counts_view};
ghost use Rattle.lalrpop_lr1_inline.specs.NumberCounts.{handed_out, sum_of_entries, sum_of_sides, up_to_limit};

use crate::records::{has_named, is_named};
use lalrpop_grammar_repr::{Grammar, Production, Symbol};
use lalrpop_grammar_symbols::NonterminalString;
use std::alloc::{AllocError, Global};

/// How many numbers actions can have.
pub(crate) const LIMIT: u64 = 0x1_0000_0000;

/// An inlined nonterminal, with how many productions it has when it is inlined.
#[derive(Clone, Copy)]
pub(crate) struct Counted<'g> {
    /// Its name.
    name: &'g NonterminalString,
    /// How many productions it has, or one past the limit.
    many: u64,
}

/// The number, or one past the limit where it is past it.
fn to_limit(number: u64) -> u64
    ensures { result ≡ up_to_limit number }
{
    if number > LIMIT { LIMIT + 1 } else { number }
}

/// The sum, up to the limit.
fn plus(left: u64, right: u64) -> u64
    ensures { result ≡ up_to_limit (left + right) }
{
    match left.checked_add(right) {
        None => LIMIT + 1,
        Some(sum) => to_limit(sum),
    }
}

/// The product, up to the limit.
fn times(left: u64, right: u64) -> u64
    ensures { result ≡ up_to_limit (left * right) }
{
    match left.checked_mul(right) {
        None => LIMIT + 1,
        Some(product) => to_limit(product),
    }
}

/// How many right sides there are once each place of the nonterminal is replaced in so many of this one.
fn times_places(many: u64, symbols: &[Symbol], name: &NonterminalString, sources: u64) -> u64
    ensures { result ≡ up_to_limit (many * choices_at name.now.0 sources symbols.now) }
{
    let mut found = many;
    for symbol in symbols {
        if is_named(symbol, name) {
            found = times(found, sources);
        }
    }
    to_limit(found)
}

/// How many productions one with this right side becomes.
fn becomes(symbols: &[Symbol], counted: &[Counted]) -> u64
    ensures { result ≡ up_to_limit (becomes_many (counts_view counted.now) symbols.now) }
{
    let mut many = 1;
    for one in counted {
        many = times_places(many, symbols, one.name, one.many);
    }
    to_limit(many)
}

/// How many numbers are handed out for what becomes of a production with this right side.
fn count_handed(symbols: &[Symbol], counted: &[Counted]) -> u64
    ensures { result ≡ up_to_limit (handed_out (counts_view counted.now) symbols.now) }
{
    let mut many = 1;
    let mut total = 0;
    for one in counted {
        if has_named(symbols, one.name) {
            many = times_places(many, symbols, one.name, one.many);
            total = plus(total, many);
        }
    }
    to_limit(total)
}

/// How many productions these become.
fn all_become(productions: &[Production], counted: &[Counted]) -> u64
    ensures { result ≡ up_to_limit (sum_of_sides (becomes_many (counts_view counted.now)) productions.now) }
{
    let mut total = 0;
    for production in productions {
        total = plus(total, becomes(production.symbols.as_slice(), counted));
    }
    to_limit(total)
}

/// How many numbers are handed out for these productions.
fn all_handed(productions: &[Production], counted: &[Counted]) -> u64
    ensures { result ≡ up_to_limit (sum_of_sides (handed_out (counts_view counted.now)) productions.now) }
{
    let mut total = 0;
    for production in productions {
        total = plus(total, count_handed(production.symbols.as_slice(), counted));
    }
    to_limit(total)
}

/// The nonterminals of the order, each with how many productions it has when it is inlined.
fn count_each<'g>(
    alloc: Global,
    grammar: &Grammar,
    order: &'g [NonterminalString],
) -> Result<Vec<Counted<'g>>, AllocError>
    ensures { IfOk result (λ counted. counts_view counted.items
        ≡ counts_to_limit (counts_of grammar.now.nonterminals [] (map (λ n. n.0) order.now))) }
{
    let mut counted = Vec::new(alloc);
    for name in order {
        let many = all_become(grammar.productions_for(name), counted.as_slice());
        counted.push(Counted { name, many })?;
    }
    Ok(counted)
}

/// How many numbers are handed out for all productions of the grammar.
fn handed_by_rules(grammar: &Grammar, counted: &[Counted]) -> u64
    ensures { result ≡ up_to_limit (sum_of_entries (handed_out (counts_view counted.now)) grammar.now.nonterminals) }
{
    let mut total = 0;
    for (_, rule) in grammar.nonterminals.iter() {
        total = plus(total, all_handed(rule.productions.as_slice(), counted));
    }
    to_limit(total)
}

/// How many numbers there are once the nonterminals of the order are inlined, those of the grammar's own actions included;
/// one past the limit where there are more.
pub(crate) fn count_numbers(
    alloc: Global,
    grammar: &Grammar,
    order: &[NonterminalString],
) -> Result<u64, AllocError>
    ensures { IfOk result (λ many. many ≡ up_to_limit (length grammar.now.action_fn_defns
        + sum_of_entries (handed_out (counts_of grammar.now.nonterminals [] (map (λ n. n.0) order.now))) grammar.now.nonterminals)) }
{
    let counted = count_each(alloc, grammar, order)?;
    let handed = handed_by_rules(grammar, counted.as_slice());
    Ok(plus(grammar.action_fn_defns.len() as u64, handed))
}
