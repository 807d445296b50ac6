//! Where the rules of a grammar's keys stand.

ghost use Rattle.std.specs.Prelude.{◌≡◌, ◌++◌, [], IfErr, IfOk, map};
ghost use Rattle.lalrpop_grammar_symbols.specs.Views.{span_view};
ghost use Rattle.lalrpop_grammar.specs.Views.{grammar_view};
ghost use Rattle.lalrpop_grammar.specs.WrittenGrammar.{rules_of};
ghost use Rattle.lalrpop_grammar_rules.specs.RuleTable.{IsTable, rules_with};
ghost use Rattle.lalrpop_norm_keys.specs.Tables.{table_keys};
ghost use Rattle.lalrpop_norm_keys.specs.FoundCalls.{TellsOfOneCall, plain_calls};
ghost use Rattle.lalrpop_norm_keys.specs.GrammarPlaces.{HasKeySpans, PutsMetInCalls};
ghost use Rattle.lalrpop_norm_keys.specs.Views.{met_view};

use crate::key_places::first::spans_of_keys;
use crate::key_places::meeting::MetKey;
use crate::key_places::walk::note_calls;
use crate::key_table::KeyTable;
use crate::plain::plain_rules;
use lalrpop_grammar::Grammar;
use lalrpop_grammar_repr::NormFault;
use lalrpop_grammar_rules::Rules;
use lalrpop_grammar_rules::closed::Finder;
use lalrpop_grammar_symbols::{List, Span};
use std::alloc::Global;

/// The keys that are met in the grammar's rules that are no macros, in order, and then in the keys.
fn all_keys_met<F: Finder>(
    alloc: Global,
    finder: &F,
    grammar: &Grammar,
    rules: &Rules<'_>,
    keys: &KeyTable,
) -> Result<List<MetKey>, NormFault>
    requires table { IsTable rules.now }
    ensures met { IfOk result (λ met. PutsMetInCalls (rules_with (F.finds finder.now) rules.now)
        (plain_calls (rules_of (grammar_view grammar.now).items) ++ table_keys keys.now) [] (map met_view met)) }
    ensures fault { IfErr result (TellsOfOneCall (rules_with (F.finds finder.now) rules.now) (F.too_deep finder.now)
        (plain_calls (rules_of (grammar_view grammar.now).items) ++ table_keys keys.now)) }
{
    let mut met = List::new(alloc);
    let plain = plain_rules(alloc, grammar)?;
    note_calls(alloc, finder, rules, plain.as_slice(), &mut met)?;
    note_calls(alloc, finder, rules, keys.keys(), &mut met)?;
    Ok(met)
}

/// Where the rules of the keys stand, in order: each where its key is met first, in the rules that are no macros, in order, and
/// then in the keys; one that is met nowhere, where the grammar does. A key is met at the innermost symbol that has it, and one
/// that comes by a parameter at the parameter's name.
///
/// # Errors
///
/// A condition can't be asked, or memory runs out.
pub fn key_spans<F: Finder>(
    alloc: Global,
    finder: &F,
    grammar: &Grammar,
    rules: &Rules<'_>,
    keys: &KeyTable,
) -> Result<List<Span>, NormFault>
    requires table { IsTable rules.now }
    ensures spans { IfOk result (λ spans. HasKeySpans (rules_with (F.finds finder.now) rules.now)
        (rules_of (grammar_view grammar.now).items) (span_view grammar.now.span) (table_keys keys.now) (map span_view spans)) }
    ensures fault { IfErr result (TellsOfOneCall (rules_with (F.finds finder.now) rules.now) (F.too_deep finder.now)
        (plain_calls (rules_of (grammar_view grammar.now).items) ++ table_keys keys.now)) }
{
    let met = all_keys_met(alloc, finder, grammar, rules, keys)?;
    Ok(spans_of_keys(alloc, keys.keys(), met.as_slice(), grammar.span)?)
}
