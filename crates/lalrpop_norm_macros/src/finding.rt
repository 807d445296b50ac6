//! The keys of a grammar, where nothing is wrong with its macros.

ghost use Rattle.std.specs.Prelude.{◌≡◌, [], IfErr, IfOk};
ghost use Rattle.lalrpop_grammar.specs.Views.{grammar_view};
ghost use Rattle.lalrpop_grammar_repr.specs.declared.norm_error.NormErrorKind.TheVariants.{MacroDepth};
ghost use Rattle.lalrpop_grammar_rules.specs.RuleTable.{IsOfGrammar, IsTable};
ghost use Rattle.lalrpop_norm_theory.specs.Between.{grammar_between};
ghost use Rattle.lalrpop_norm_theory.specs.Rounds.{AreCallsToDepth};
ghost use Rattle.lalrpop_norm_keys.specs.Tables.{IsKeyIndex, table_keys};
ghost use Rattle.lalrpop_norm_keys.specs.UseSearch.{AreCallsByUse};
ghost use Rattle.lalrpop_norm_macros.specs.MacroKeys.{HasMacroKeys};
ghost use Rattle.lalrpop_norm_macros.specs.MacroPass.{IsMacroFault, IsReadyForMacros};

use lalrpop_grammar::Grammar;
use lalrpop_grammar_repr::{NormError, NormErrorKind, NormFault, NormResult};
use lalrpop_grammar_rules::Rules;
use lalrpop_grammar_rules::closed::Finder;
use lalrpop_grammar_symbols::Span;
use lalrpop_norm_keys::key_table::KeyTable;
use lalrpop_norm_keys::{FoundCalls, check_arity, find_calls, find_keys};
use std::alloc::Global;

/// What is told of a call that is deeper than the limit.
fn depth_error(limit: u16, span: Span) -> NormError
    ensures kind { result.kind ≡ MacroDepth limit }
    ensures span { result.span ≡ span }
{
    NormError {
        kind: NormErrorKind::MacroDepth(limit),
        span,
    }
}

/// The calls that the grammar makes, in order of first use, where none is deeper than the limit.
fn calls_within<F: Finder>(
    alloc: Global,
    finder: &F,
    grammar: &Grammar,
    rules: &Rules<'_>,
    limit: u16,
) -> NormResult<KeyTable>
    requires table { IsTable rules.now }
    requires of_grammar { IsOfGrammar [] (grammar_view grammar.now) rules.now }
    ensures index { IfOk result IsKeyIndex }
    ensures found { IfOk result (λ calls. IsReadyForMacros (F.finds finder.now) (grammar_view grammar.now)
        → AreCallsToDepth (grammar_between (F.finds finder.now) (grammar_view grammar.now)) limit (table_keys calls) []) }
    ensures order { IfOk result (λ calls. IsReadyForMacros (F.finds finder.now) (grammar_view grammar.now)
        → AreCallsByUse (grammar_between (F.finds finder.now) (grammar_view grammar.now)) (table_keys calls)) }
    ensures fault { IfErr result (IsMacroFault (F.finds finder.now) (F.too_deep finder.now) limit (grammar_view grammar.now)) }
{
    match find_calls(alloc, finder, grammar, rules, limit)? {
        FoundCalls::All(calls) => Ok(calls),
        FoundCalls::TooDeep(_, span) => Err(NormFault::Norm(depth_error(limit, span))),
    }
}

/// The keys of the grammar, where nothing is wrong with its macros. The table is of its rules, under no features.
pub(crate) fn macro_keys<F: Finder>(
    alloc: Global,
    finder: &F,
    grammar: &Grammar,
    rules: &Rules<'_>,
    limit: u16,
) -> NormResult<KeyTable>
    requires table { IsTable rules.now }
    requires of_grammar { IsOfGrammar [] (grammar_view grammar.now) rules.now }
    ensures index { IfOk result IsKeyIndex }
    ensures found { IfOk result (λ keys. IsReadyForMacros (F.finds finder.now) (grammar_view grammar.now)
        → HasMacroKeys (F.finds finder.now) (F.too_deep finder.now) limit (grammar_view grammar.now) (table_keys keys)) }
    ensures fault { IfErr result (IsMacroFault (F.finds finder.now) (F.too_deep finder.now) limit (grammar_view grammar.now)) }
{
    check_arity(alloc, grammar, rules)?;
    let calls = calls_within(alloc, finder, grammar, rules, limit)?;
    find_keys(alloc, finder, grammar, rules, &calls)
}
