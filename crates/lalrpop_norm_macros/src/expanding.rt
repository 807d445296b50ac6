//! A grammar whose macros are expanded.

ghost use Rattle.std.specs.Prelude.{◌≡◌, IfErr, IfOk, map};
ghost use Rattle.lalrpop_grammar.specs.Views.{grammar_view, nonterminal_view};
ghost use Rattle.lalrpop_grammar_rules.specs.Search.{finds as finds_in, is_too_deep};
ghost use Rattle.lalrpop_norm_chain.specs.Chains.{IsMacroResult};
ghost use Rattle.lalrpop_norm_macros.specs.RuleItems.{grammar_with_rules, other_items};
ghost use Rattle.lalrpop_norm_macros.specs.MacroPass.{HasNoMacroFault, IsMacroFault, IsReadyForMacros};

use crate::finding::macro_keys;
use crate::key_rules::with_rules;
use crate::writing::rules_of_keys;
use lalrpop_grammar::{Grammar, NonterminalData};
use lalrpop_grammar_repr::NormResult;
use lalrpop_grammar_rules::Rules;
use lalrpop_grammar_rules::closed::Finder;
use lalrpop_grammar_rules::search::PatternFinder;
use lalrpop_grammar_symbols::List;
use std::alloc::Global;

/// The rules of the grammar's keys.
fn expanded_rules<F: Finder>(
    alloc: Global,
    finder: &F,
    grammar: &Grammar,
    limit: u16,
) -> NormResult<List<NonterminalData>>
    ensures made { IfOk result (λ made. IsReadyForMacros (F.finds finder.now) (grammar_view grammar.now)
        → IsMacroResult (F.finds finder.now) (grammar_view grammar.now)
        (grammar_with_rules (grammar_view grammar.now) (map nonterminal_view made))) }
    ensures right { IfOk result (λ made. IsReadyForMacros (F.finds finder.now) (grammar_view grammar.now)
        → HasNoMacroFault (F.finds finder.now) (F.too_deep finder.now) limit (grammar_view grammar.now)) }
    ensures fault { IfErr result (IsMacroFault (F.finds finder.now) (F.too_deep finder.now) limit (grammar_view grammar.now)) }
{
    let rules = Rules::new(alloc, grammar, &[])?;
    let keys = macro_keys(alloc, finder, grammar, &rules, limit)?;
    rules_of_keys(alloc, finder, grammar, &rules, &keys)
}

/// The grammar whose macros are expanded: in place of its rules it has one for each key, that is for each rule that is no macro,
/// each call of a macro that is made, and each repeat, group and lookaround in these, which stands where it is met first. Its other
/// items stay. `limit` says how deep calls may stand in calls. The finder searches for the patterns of conditions. Names are
/// resolved before, levels are expanded, and what is disabled is gone.
///
/// # Errors
///
/// A call with another number of arguments than parameters; a call that is deeper than the limit, at the innermost symbol that has
/// it; a condition of a call that is made on something else than a quoted literal, or with a pattern that isn't read; a search for
/// a pattern that is refused. Or memory runs out.
pub fn expand_macros_by<F: Finder>(
    alloc: Global,
    finder: &F,
    grammar: Grammar,
    limit: u16,
) -> NormResult<Grammar>
    ensures made { IfOk result (λ made. IsReadyForMacros (F.finds finder.now) (grammar_view grammar)
        → IsMacroResult (F.finds finder.now) (grammar_view grammar) (grammar_view made)) }
    ensures items { IfOk result (λ made. other_items (grammar_view made).items ≡ other_items (grammar_view grammar).items) }
    ensures right { IfOk result (λ made. IsReadyForMacros (F.finds finder.now) (grammar_view grammar)
        → HasNoMacroFault (F.finds finder.now) (F.too_deep finder.now) limit (grammar_view grammar)) }
    ensures fault { IfErr result (IsMacroFault (F.finds finder.now) (F.too_deep finder.now) limit (grammar_view grammar)) }
{
    let rules = expanded_rules(alloc, finder, &grammar, limit)?;
    Ok(with_rules(alloc, grammar, rules)?)
}

/// The same, by the search for patterns that the judge asks.
///
/// # Errors
///
/// Those of `expand_macros_by`.
pub fn expand_macros(alloc: Global, grammar: Grammar, limit: u16) -> NormResult<Grammar>
    ensures made { IfOk result (λ made. IsReadyForMacros finds_in (grammar_view grammar)
        → IsMacroResult finds_in (grammar_view grammar) (grammar_view made)) }
    ensures items { IfOk result (λ made. other_items (grammar_view made).items ≡ other_items (grammar_view grammar).items) }
    ensures right { IfOk result (λ made. IsReadyForMacros finds_in (grammar_view grammar)
        → HasNoMacroFault finds_in is_too_deep limit (grammar_view grammar)) }
    ensures fault { IfErr result (IsMacroFault finds_in is_too_deep limit (grammar_view grammar)) }
{
    expand_macros_by(alloc, &PatternFinder, grammar, limit)
}
