//! The judge: whether a grammar admits a tree from a start, with exactly these tokens.

ghost use Rattle.std.specs.Prelude.{◌≡◌, ◌↔◌, IfErr, IfOk, IsTrue, map};
ghost use Rattle.lalrpop_grammar.specs.Trees.{leaves};
ghost use Rattle.lalrpop_grammar.specs.Views.{grammar_view, token_view, tree_view};
ghost use Rattle.lalrpop_grammar_symbols.specs.Symbols.{Closed, Closeds};
ghost use Rattle.lalrpop_grammar_language.specs.Admitting.{AdmitsFrom, AdmitsStart};
ghost use Rattle.lalrpop_grammar_language.specs.Enabled.{enabled_grammar};
ghost use Rattle.lalrpop_grammar_rules.specs.RuleTable.{IsTable, rules_with};
ghost use Rattle.lalrpop_grammar_rules.specs.Search.{finds};
ghost use Rattle.lalrpop_grammar_rules.specs.Views.{closed_view};
ghost use Rattle.lalrpop_judge.specs.Faults.{HasSearch, OnlyWhere};

use crate::error::JudgeError;
use crate::leaves::are_leaves;
use crate::patterns::CompiledPatterns;
use crate::walk::admits;
use lalrpop_grammar::{Atom, Grammar, List, ScanToken, WrittenTree};
use lalrpop_grammar_rules::Rules;
use lalrpop_grammar_rules::closed::{ClosedSymbol, Shared};
use std::alloc::{AllocError, Global};

/// Whether the grammar that the features enable admits the tree from the start, with exactly these tokens.
///
/// `features` are the names for which `#[cfg(feature = "name")]` holds; `start` is a rule's name. The start asks for
/// the rule of that name at its loosest level. A call asks for a node of its rule, which stands in the enabled grammar
/// exactly once, with the call's arguments and an enabled alternative, whose condition holds and whose level is at
/// most the call's, and whose symbols, with parameters bound and levels at calls, admit the children, one each. A
/// repeat asks for a list or an option, a group for one tree for each of its symbols, a place for a place, a literal or
/// mapped bare name for its leaf; names and choices ask for what is under them, and error recovery for nothing. The
/// tokens have to be those at the leaves, from left to right, with their texts and spans. Where nothing of this fits,
/// also for a faulty grammar, the answer is no.
///
/// # Errors
///
/// `Condition`, where the pattern of a condition isn't read or the search for it is refused; it comes only where a node
/// of the tree names an enabled alternative whose condition is a search for a pattern. `Memory`, where memory ran out.
pub fn judge(
    alloc: Global,
    grammar: &Grammar,
    features: &[Atom],
    start: &Atom,
    tree: &WrittenTree,
    tokens: &[ScanToken<'_>],
) -> Result<bool, JudgeError>
    ensures exact { IfOk result (λ yes. IsTrue yes
        ↔ AdmitsFrom finds features.now (grammar_view grammar.now) start.now (tree_view tree.now)
        (map token_view tokens.now)) }
    ensures condition { IfErr result (OnlyWhere
        (HasSearch (enabled_grammar finds features.now (grammar_view grammar.now)) (tree_view tree.now))) }
{
    if !are_leaves(tree, tokens) {
        return Ok(false);
    }
    let yes = judge_tree(alloc, grammar, features, start, tree)?;
    Ok(yes)
}

/// [`judge`] with the tokens at the tree's own leaves, which it needn't be given.
///
/// # Errors
///
/// Those of [`judge`].
pub fn judge_tree(
    alloc: Global,
    grammar: &Grammar,
    features: &[Atom],
    start: &Atom,
    tree: &WrittenTree,
) -> Result<bool, JudgeError>
    ensures exact { IfOk result (λ yes. IsTrue yes
        ↔ AdmitsFrom finds features.now (grammar_view grammar.now) start.now (tree_view tree.now)
        (leaves (tree_view tree.now))) }
    ensures condition { IfErr result (OnlyWhere
        (HasSearch (enabled_grammar finds features.now (grammar_view grammar.now)) (tree_view tree.now))) }
{
    let rules = Rules::new(alloc, grammar, features)?;
    let patterns = CompiledPatterns::new(alloc, grammar, features)?;
    let yes = admits_start(alloc, &rules, &patterns, start, tree)?;
    Ok(yes)
}

/// The start as a call of its rule, with no arguments, of at most that level.
fn start_symbol(alloc: Global, start: &Atom, level: Option<u32>) -> Result<ClosedSymbol, AllocError>
    ensures { IfOk result (λ symbol. closed_view symbol ≡ Closed.call start.now Closeds.none level) }
{
    let name = start.try_clone()?;
    let args = Shared::new(alloc, List::new(alloc))?;
    Ok(ClosedSymbol::Call(name, args, level))
}

/// Whether the start admits the tree over its own leaves.
fn admits_start(
    alloc: Global,
    rules: &Rules<'_>,
    patterns: &CompiledPatterns<'_>,
    start: &Atom,
    tree: &WrittenTree,
) -> Result<bool, JudgeError>
    requires { IsTable rules.now }
    ensures exact { IfOk result (λ yes. IsTrue yes
        ↔ AdmitsStart (rules_with finds rules.now) start.now (tree_view tree.now) (leaves (tree_view tree.now))) }
    ensures fault { IfErr result (OnlyWhere (HasSearch (rules_with finds rules.now) (tree_view tree.now))) }
{
    let Some(rule) = rules.find(start) else {
        return Ok(false);
    };
    if !rule.written.args.is_empty() {
        return Ok(false);
    }
    let symbol = start_symbol(alloc, start, rule.loosest)?;
    admits(alloc, rules, patterns, tree, &symbol)
}
