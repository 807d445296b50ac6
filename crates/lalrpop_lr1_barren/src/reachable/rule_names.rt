//! The names of a grammar's rules, and the clauses that they make.

ghost use Rattle.std.specs.Prelude.{◌≡◌, ◌++◌, ◌∷◌, [], IfOk, OnOk, drop, filter, flat_map, map, nat_lt};
ghost use Rattle.lalrpop_lr1_barren.specs.Clauses.{clause_view};
ghost use Rattle.lalrpop_lr1_barren.specs.RuleClauses.{are_names, names_of_rule, reach_of_rule, tree_of_rule};

use crate::reachable::clauses::Clause;
use lalrpop_lr1_first::{Numbered, NumberedRule, Place};
use std::alloc::{AllocError, Global};

/// What stands from a place on; nothing where the place is past the end.
fn places_from(places: &[Place], start: usize) -> &[Place]
    ensures { result.now ≡ drop start places.now }
{
    if start < places.len() {
        &places[start..]
    } else {
        &[]
    }
}

/// Adds the number, where it is below the count.
fn add_below(count: usize, symbol: usize, names: &mut Vec<usize>) -> Result<(), AllocError>
    ensures { OnOk result (names.new.items ≡ names.old.items ++ filter (λ s. nat_lt s count) (symbol ∷ [])) }
{
    if symbol < count {
        names.push(symbol)?;
    }
    Ok(())
}

/// The numbers below a count of the symbols up to the end of the right side.
fn names_in(alloc: Global, count: usize, places: &[Place]) -> Result<Vec<usize>, AllocError>
    ensures { IfOk result (λ names. names.items ≡ are_names count places.now) }
{
    let mut names = Vec::new(alloc);
    for place in places {
        match *place {
            Place::End(_) => return Ok(names),
            Place::Symbol(symbol) => add_below(count, symbol, &mut names)?,
        }
    }
    Ok(names)
}

/// The names on the rule's right side.
fn names_of(
    alloc: Global,
    table: &Numbered<'_>,
    rule: &NumberedRule,
) -> Result<Vec<usize>, AllocError>
    ensures { IfOk result (λ names. names.items ≡ names_of_rule table.now rule.now) }
{
    let places = places_from(table.places(), rule.start);
    let names = names_in(alloc, table.names().len(), places)?;
    Ok(names)
}

/// The clause by which a rule's left side has a tree where all names on its right side do.
fn tree_clause(
    alloc: Global,
    table: &Numbered<'_>,
    rule: &NumberedRule,
) -> Result<Clause, AllocError>
    ensures { IfOk result (λ clause. clause_view clause ≡ tree_of_rule table.now rule.now) }
{
    let needs = names_of(alloc, table, rule)?;
    Ok(Clause {
        needs,
        gives: rule.left,
    })
}

/// The clauses by which the left sides of rules have trees.
fn tree_clauses_of(
    alloc: Global,
    table: &Numbered<'_>,
    rules: &[NumberedRule],
) -> Result<Vec<Clause>, AllocError>
    ensures { IfOk result (λ clauses. map clause_view clauses.items ≡ map (tree_of_rule table.now) rules.now) }
{
    let mut clauses = Vec::new(alloc);
    for rule in rules {
        clauses.push(tree_clause(alloc, table, rule)?)?;
    }
    Ok(clauses)
}

/// The clauses by which names have trees.
pub(crate) fn tree_clauses(alloc: Global, table: &Numbered<'_>) -> Result<Vec<Clause>, AllocError>
    ensures { IfOk result (λ clauses. map clause_view clauses.items ≡ map (tree_of_rule table.now) table.now.rules.items) }
{
    let clauses = tree_clauses_of(alloc, table, table.rules())?;
    Ok(clauses)
}

/// The clause by which a name leads to another.
pub fn reach_clause(alloc: Global, from: usize, to: usize) -> Result<Clause, AllocError>
    ensures { IfOk result (λ clause. clause_view clause ≡ (from ∷ [], to)) }
{
    let mut needs = Vec::new(alloc);
    needs.push(from)?;
    Ok(Clause { needs, gives: to })
}

/// Adds the clauses by which a name leads to others.
fn add_reach_clauses(
    alloc: Global,
    from: usize,
    names: &[usize],
    clauses: &mut Vec<Clause>,
) -> Result<(), AllocError>
    ensures { OnOk result (map clause_view clauses.new.items
        ≡ map clause_view clauses.old.items ++ map (λ s. (from ∷ [], s)) names.now) }
{
    for name in names {
        clauses.push(reach_clause(alloc, from, *name)?)?;
    }
    Ok(())
}

/// The clauses by which the left sides of rules lead to the names on their right sides.
fn reach_clauses_of(
    alloc: Global,
    table: &Numbered<'_>,
    rules: &[NumberedRule],
) -> Result<Vec<Clause>, AllocError>
    ensures { IfOk result (λ clauses. map clause_view clauses.items ≡ flat_map (reach_of_rule table.now) rules.now) }
{
    let mut clauses = Vec::new(alloc);
    for rule in rules {
        let names = names_of(alloc, table, rule)?;
        add_reach_clauses(alloc, rule.left, names.as_slice(), &mut clauses)?;
    }
    Ok(clauses)
}

/// The clauses by which names lead to names.
pub(crate) fn reach_clauses(alloc: Global, table: &Numbered<'_>) -> Result<Vec<Clause>, AllocError>
    ensures { IfOk result (λ clauses. map clause_view clauses.items ≡ flat_map (reach_of_rule table.now) table.now.rules.items) }
{
    let clauses = reach_clauses_of(alloc, table, table.rules())?;
    Ok(clauses)
}
