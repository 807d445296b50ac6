//! What follows from marks by clauses.

ghost use Rattle.std.specs.Prelude.{◌≡◌, ◌<◌, ◌↔◌, ◌++◌, ◌∷◌, [], ℕ, IfOk, OnOk, length, map};
ghost use Rattle.std.specs.Option.{is_some};
ghost use Rattle.lalrpop_lr1_least_trees.specs.NumberedTrees.{rule_view, rule_views};
ghost use Rattle.lalrpop_lr1_barren.specs.Clauses.{ClausesAreWithin, Follows, IsMarked, clause_view, has_mark};
ghost use Rattle.lalrpop_lr1_barren.specs.ClauseRules.{marked_rules, rule_of_clause, seed_rule};

use lalrpop_lr1_least_trees::least_counts::{LeastTree, Rule, least_trees};
use std::alloc::{AllocError, Global};

/// A clause over numbers: where all that it needs is marked, what it gives is marked too.
#[derive(Drop)]
pub struct Clause {
    /// The numbers that it needs.
    pub(crate) needs: Vec<usize>,
    /// The number that it gives.
    pub(crate) gives: usize,
}

/// Whether the number is marked.
pub fn is_marked(marks: &[bool], number: usize) -> bool
    ensures { result ≡ has_mark marks.now number }
{
    if number < marks.len() {
        marks[number]
    } else {
        false
    }
}

/// The clause as a rule for trees: what it gives has one where all that it needs have.
fn rule_by_clause(alloc: Global, clause: &Clause) -> Result<Rule, AllocError>
    ensures { IfOk result (λ rule. rule_view rule ≡ rule_of_clause clause.now) }
{
    let right = Vec::from_slice(alloc, clause.needs.as_slice())?;
    Ok(Rule {
        left: clause.gives,
        right,
    })
}

/// The clauses as rules for trees.
fn clause_rules(alloc: Global, clauses: &[Clause]) -> Result<Vec<Rule>, AllocError>
    ensures { IfOk result (λ rules. rule_views rules.items ≡ map rule_of_clause clauses.now) }
{
    let mut rules = Vec::new(alloc);
    for clause in clauses {
        rules.push(rule_by_clause(alloc, clause)?)?;
    }
    Ok(rules)
}

/// Adds a rule without symbols for the number.
fn add_seed(alloc: Global, number: usize, rules: &mut Vec<Rule>) -> Result<(), AllocError>
    ensures { OnOk result (rule_views rules.new.items ≡ rule_views rules.old.items ++ seed_rule number ∷ []) }
{
    rules.push(Rule {
        left: number,
        right: Vec::new(alloc),
    })?;
    Ok(())
}

/// Adds a rule without symbols for each number that is marked.
fn add_seeds(alloc: Global, marks: &[bool], rules: &mut Vec<Rule>) -> Result<(), AllocError>
    ensures { OnOk result (rule_views rules.new.items ≡ rule_views rules.old.items ++ marked_rules marks.now (length marks.now)) }
{
    for number in 0..marks.len() {
        if is_marked(marks, number) {
            add_seed(alloc, number, rules)?;
        }
    }
    Ok(())
}

/// The numbers that have trees, as marks.
fn marks_of(alloc: Global, table: &[Option<LeastTree>]) -> Result<Vec<bool>, AllocError>
    ensures { IfOk result (λ marks. marks.items ≡ map is_some table.now) }
{
    let mut marks = Vec::new(alloc);
    for entry in table {
        marks.push(entry.is_some())?;
    }
    Ok(marks)
}

/// The marks with all that follows from them. A clause is looked at again only where something that it needs came.
///
/// # Errors
///
/// Memory is refused.
pub fn close(alloc: Global, clauses: &[Clause], marks: Vec<bool>) -> Result<Vec<bool>, AllocError>
    requires { ClausesAreWithin (length marks.items) clauses.now }
    ensures count { IfOk result (λ closed. length closed.items ≡ length marks.items) }
    ensures follows { IfOk result (λ closed. (n : ℕ) → IsMarked closed.items n ↔ Follows (map clause_view clauses.now) marks.items n) }
{
    let mut rules = clause_rules(alloc, clauses)?;
    add_seeds(alloc, marks.as_slice(), &mut rules)?;
    let table = least_trees(alloc, marks.len(), rules.as_slice(), false)?;
    let closed = marks_of(alloc, table.as_slice())?;
    Ok(closed)
}
