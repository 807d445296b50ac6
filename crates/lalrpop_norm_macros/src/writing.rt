//! The rules of keys under names of their own.

ghost use Rattle.std.specs.Prelude.{[], IfErr, IfOk, map};
ghost use Rattle.lalrpop_grammar.specs.Views.{grammar_view, nonterminal_view};
ghost use Rattle.lalrpop_grammar_rules.specs.RuleTable.{IsOfGrammar, IsTable};
ghost use Rattle.lalrpop_norm_theory.specs.Between.{grammar_between};
ghost use Rattle.lalrpop_norm_chain.specs.Chains.{IsMacroResult};
ghost use Rattle.lalrpop_norm_macros.specs.KeyRuleLaws.{HasRightKeys};
ghost use Rattle.lalrpop_norm_macros.specs.RuleItems.{grammar_with_rules};
ghost use Rattle.lalrpop_norm_keys.specs.Tables.{IsKeyIndex, table_keys};
ghost use Rattle.lalrpop_norm_keys.specs.FoundCalls.{TellsOfMadeCall};
ghost use Rattle.lalrpop_norm_macros.specs.MacroPass.{IsReadyForMacros};

use crate::key_names::key_names;
use crate::key_rules::key_rules;
use lalrpop_grammar::{Grammar, NonterminalData};
use lalrpop_grammar_repr::NormResult;
use lalrpop_grammar_rules::Rules;
use lalrpop_grammar_rules::closed::Finder;
use lalrpop_grammar_symbols::List;
use lalrpop_norm_keys::key_places::key_spans;
use lalrpop_norm_keys::key_table::KeyTable;
use std::alloc::Global;

/// The rules of the grammar's keys, each under a name of its own; those of repeats, groups and lookarounds stand where these are met
/// first. The table is of the grammar's rules, under no features.
pub(crate) fn rules_of_keys<F: Finder>(
    alloc: Global,
    finder: &F,
    grammar: &Grammar,
    rules: &Rules<'_>,
    keys: &KeyTable,
) -> NormResult<List<NonterminalData>>
    requires table { IsTable rules.now }
    requires of_grammar { IsOfGrammar [] (grammar_view grammar.now) rules.now }
    requires index { IsKeyIndex keys.now }
    ensures made { IfOk result (λ made. IsReadyForMacros (F.finds finder.now) (grammar_view grammar.now)
        → HasRightKeys (F.finds finder.now) [] (grammar_view grammar.now) (table_keys keys.now)
        → IsMacroResult (F.finds finder.now) (grammar_view grammar.now)
        (grammar_with_rules (grammar_view grammar.now) (map nonterminal_view made))) }
    ensures fault { IfErr result (λ fault. HasRightKeys (F.finds finder.now) [] (grammar_view grammar.now) (table_keys keys.now)
        → TellsOfMadeCall (grammar_between (F.finds finder.now) (grammar_view grammar.now)) (F.too_deep finder.now) fault) }
{
    let names = key_names(alloc, grammar, keys)?;
    let spans = key_spans(alloc, finder, grammar, rules, keys)?;
    key_rules(
        alloc,
        finder,
        grammar,
        rules,
        keys,
        names.as_slice(),
        spans.as_slice(),
    )
}
