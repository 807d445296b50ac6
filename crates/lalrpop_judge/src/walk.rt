//! Whether a closed symbol admits a tree over the tree's own leaves.

ghost use Rattle.std.specs.Prelude.{◌≡◌, ◌↔◌, IfErr, IfOk, IsTrue, map};
ghost use Rattle.lalrpop_grammar_symbols.specs.Views.{symbol_view, without_marks};
ghost use Rattle.lalrpop_grammar.specs.Trees.{trees as tree_list, Tree};
ghost use Rattle.lalrpop_grammar.specs.Views.{tree_view};
ghost use Rattle.lalrpop_grammar_rules.specs.RuleTable.{IsTable, rules_with};
ghost use Rattle.lalrpop_grammar_rules.specs.Views.{closed_view};
ghost use Rattle.lalrpop_judge.specs.Admitted.{Admitted, AdmittedAll, AdmittedEach};
ghost use Rattle.lalrpop_judge.specs.Faults.{HasSearch, HaveSearch, OnlyWhere};

use crate::asking::{call_of, is_literal, is_look, optional, repeated_symbol, symbols_of_group};
use crate::choosing::chosen_side;
use crate::error::JudgeError;
use lalrpop_grammar::{Atom, Symbol, WrittenTree};
use lalrpop_grammar_rules::Rules;
use lalrpop_grammar_rules::closed::{ClosedSymbol, Finder, same_name, show_as};
use std::alloc::Global;

/// Whether the symbol admits the tree over its own leaves.
#[cycle(admits)]
pub(crate) fn admits<F: Finder>(
    alloc: Global,
    rules: &Rules<'_>,
    finder: &F,
    tree: &WrittenTree,
    symbol: &ClosedSymbol,
) -> Result<bool, JudgeError>
    requires { IsTable rules.now }
    ensures exact { IfOk result (λ yes. IsTrue yes
        ↔ Admitted (rules_with (F.finds finder.now) rules.now) (closed_view symbol.now) (tree_view tree.now)) }
    ensures fault { IfErr result (OnlyWhere
        (HasSearch (rules_with (F.finds finder.now) rules.now) (tree_view tree.now))) }
{
    match tree {
        WrittenTree::Rule {
            rule,
            args,
            place,
            children,
        } => admits_node(
            alloc,
            rules,
            finder,
            &rule.0,
            args.as_slice(),
            *place,
            children.as_slice(),
            symbol,
        ),
        WrittenTree::List(trees) => admits_list(alloc, rules, finder, trees.as_slice(), symbol),
        WrittenTree::Opt(inside) => match inside {
            None => Ok(optional(symbol).is_some()),
            Some(tree) => {
                let Some(item) = optional(symbol) else {
                    return Ok(false);
                };
                admits(alloc, rules, finder, tree.get(), item)
            }
        },
        WrittenTree::Group(trees) => admits_group(alloc, rules, finder, trees.as_slice(), symbol),
        WrittenTree::Terminal { terminal, .. } => Ok(is_literal(symbol, terminal)),
        WrittenTree::Look => Ok(is_look(symbol)),
    }
}

/// Whether the symbol admits a node of the rule with these arguments, place and children.
#[cycle(admits)]
fn admits_node<F: Finder>(
    alloc: Global,
    rules: &Rules<'_>,
    finder: &F,
    rule: &Atom,
    args: &[Symbol],
    place: u32,
    trees: &[WrittenTree],
    symbol: &ClosedSymbol,
) -> Result<bool, JudgeError>
    requires { IsTable rules.now }
    ensures exact { IfOk result (λ yes. IsTrue yes
        ↔ Admitted (rules_with (F.finds finder.now) rules.now) (closed_view symbol.now)
        (Tree.rule rule.now (map (λ s. without_marks (symbol_view s)) args.now) place (tree_list (map tree_view trees.now)))) }
    ensures fault { IfErr result (OnlyWhere (HasSearch (rules_with (F.finds finder.now) rules.now)
        (Tree.rule rule.now (map (λ s. without_marks (symbol_view s)) args.now) place (tree_list (map tree_view trees.now))))) }
{
    let Some(call) = call_of(symbol) else {
        return Ok(false);
    };
    if !same_name(call.name, rule) {
        return Ok(false);
    }
    if !show_as(call.args, args) {
        return Ok(false);
    }
    let Some(side) = chosen_side(alloc, rules, finder, rule, call.args, call.level, place)? else {
        return Ok(false);
    };
    admits_all(alloc, rules, finder, trees, side.as_slice())
}

/// Whether the symbol admits a list of these trees.
#[cycle(admits)]
fn admits_list<F: Finder>(
    alloc: Global,
    rules: &Rules<'_>,
    finder: &F,
    trees: &[WrittenTree],
    symbol: &ClosedSymbol,
) -> Result<bool, JudgeError>
    requires { IsTable rules.now }
    ensures exact { IfOk result (λ yes. IsTrue yes
        ↔ Admitted (rules_with (F.finds finder.now) rules.now) (closed_view symbol.now)
        (Tree.list (tree_list (map tree_view trees.now)))) }
    ensures fault { IfErr result (OnlyWhere (HaveSearch (rules_with (F.finds finder.now) rules.now)
        (tree_list (map tree_view trees.now)))) }
{
    let Some(item) = repeated_symbol(symbol, trees.is_empty()) else {
        return Ok(false);
    };
    admits_each(alloc, rules, finder, trees, item)
}

/// Whether the symbol admits a group of these trees.
#[cycle(admits)]
fn admits_group<F: Finder>(
    alloc: Global,
    rules: &Rules<'_>,
    finder: &F,
    trees: &[WrittenTree],
    symbol: &ClosedSymbol,
) -> Result<bool, JudgeError>
    requires { IsTable rules.now }
    ensures exact { IfOk result (λ yes. IsTrue yes
        ↔ Admitted (rules_with (F.finds finder.now) rules.now) (closed_view symbol.now)
        (Tree.group (tree_list (map tree_view trees.now)))) }
    ensures fault { IfErr result (OnlyWhere (HaveSearch (rules_with (F.finds finder.now) rules.now)
        (tree_list (map tree_view trees.now)))) }
{
    let Some(symbols) = symbols_of_group(symbol) else {
        return Ok(false);
    };
    admits_all(alloc, rules, finder, trees, symbols)
}

/// Whether each symbol admits its tree, one for each.
#[cycle(admits)]
fn admits_all<F: Finder>(
    alloc: Global,
    rules: &Rules<'_>,
    finder: &F,
    trees: &[WrittenTree],
    symbols: &[ClosedSymbol],
) -> Result<bool, JudgeError>
    requires { IsTable rules.now }
    ensures exact { IfOk result (λ yes. IsTrue yes
        ↔ AdmittedAll (rules_with (F.finds finder.now) rules.now) (map closed_view symbols.now)
        (tree_list (map tree_view trees.now))) }
    ensures fault { IfErr result (OnlyWhere (HaveSearch (rules_with (F.finds finder.now) rules.now)
        (tree_list (map tree_view trees.now)))) }
{
    let mut left = symbols;
    for tree in trees {
        let Some((symbol, others)) = left.split_first() else {
            return Ok(false);
        };
        if !admits(alloc, rules, finder, tree, symbol)? {
            return Ok(false);
        }
        left = others;
    }
    Ok(left.is_empty())
}

/// Whether the symbol admits each of the trees.
#[cycle(admits)]
fn admits_each<F: Finder>(
    alloc: Global,
    rules: &Rules<'_>,
    finder: &F,
    trees: &[WrittenTree],
    symbol: &ClosedSymbol,
) -> Result<bool, JudgeError>
    requires { IsTable rules.now }
    ensures exact { IfOk result (λ yes. IsTrue yes
        ↔ AdmittedEach (rules_with (F.finds finder.now) rules.now) (closed_view symbol.now)
        (tree_list (map tree_view trees.now))) }
    ensures fault { IfErr result (OnlyWhere (HaveSearch (rules_with (F.finds finder.now) rules.now)
        (tree_list (map tree_view trees.now)))) }
{
    for tree in trees {
        if !admits(alloc, rules, finder, tree, symbol)? {
            return Ok(false);
        }
    }
    Ok(true)
}
